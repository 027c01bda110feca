// The five lines of an answer, put into a lent room.
ghost use Rattle.std.specs.Prelude.{◌≡◌, ◌+◌, ◌≤◌, ◌<◌, ◌^◌, length};
ghost use Rattle.figures.specs.Digits.{numeral};
ghost use Rattle.writing.specs.Put.{Put};
ghost use Rattle.responding.specs.Respond.{line_of, numbers_of, five_lines};

use answers::{DONE, Refused, Shown, number};
use requests::bytes::put_bytes;
use writing::{put_numeral, put_unit, put_units};

const LINE_FEED: u16 = b'\n' as u16;

// The numbers of the lines before the text.
#[derive(Clone, Copy)]
pub struct Numbers {
    pub answer: u16,
    pub place: u32,
    pub colour: u16,
    pub exact: bool,
}

// What is shown has no place, and a refusal no colour.
pub fn numbers_of(shown: Result<Shown, Refused>) -> Numbers
    ensures { result ≡ numbers_of shown }
{
    match shown {
        Ok(s) => Numbers {
            answer: DONE,
            place: 0,
            colour: s.colour,
            exact: s.exact,
        },
        Err(r) => Numbers {
            answer: number(r.refusal),
            place: r.place,
            colour: 0,
            exact: false,
        },
    }
}

// Puts a line with a number.
fn put_number(room: &mut [u16], at: usize, name: &[u8], n: u64) -> usize
    requires { (at < 2 ^ 60) × (length name.now ≤ 7) }
    ensures within { result ≤ at + 33 }
    ensures put { Put room.old at (line_of name.now (numeral 1 n)) result room.new }
{
    let a = put_bytes(room, at, name);
    let b = put_numeral(room, a, 1, n);
    put_unit(room, b, LINE_FEED)
}

// Puts a line with a text.
fn put_text(room: &mut [u16], at: usize, name: &[u8], text: &[u16]) -> usize
    requires { (at < 2 ^ 60) × (length name.now ≤ 7) × (length text.now ≤ 4096) }
    ensures within { result ≤ at + 4104 }
    ensures put { Put room.old at (line_of name.now text.now) result room.new }
{
    let a = put_bytes(room, at, name);
    let b = put_units(room, a, text);
    put_unit(room, b, LINE_FEED)
}

// Puts the five lines.
pub fn put_lines(room: &mut [u16], numbers: Numbers, text: &[u16]) -> usize
    requires { length text.now ≤ 4096 }
    ensures within { result ≤ 4236 }
    ensures put { Put room.old 0 (five_lines numbers text.now) result room.new }
{
    let a = put_number(room, 0, b"answer=", u64::from(numbers.answer));
    let b = put_number(room, a, b"place=", u64::from(numbers.place));
    let c = put_number(room, b, b"colour=", u64::from(numbers.colour));
    let d = put_number(room, c, b"exact=", u64::from(numbers.exact));
    put_text(room, d, b"text=", text)
}
