// The line that tells a reason, put into a lent room.
ghost use Rattle.std.specs.Prelude.{◌+◌, ◌≤◌, ◌<◌, ◌^◌, length};
ghost use Rattle.writing.specs.Put.{Put};
ghost use Rattle.reasons_check.specs.Lines.{named, choice_units, line_of};

use c_numbers::WhyNumbers;
use requests::bytes::put_bytes;
use writing::{put_numeral, put_unit};

const LINE_FEED: u16 = b'\n' as u16;

// Puts a name and a number.
fn put_named(room: &mut [u16], at: usize, name: &[u8], n: u16) -> usize
    requires { (at < 2 ^ 60) × (length name.now ≤ 9) }
    ensures within { result ≤ at + 34 }
    ensures put { Put room.old at (named name.now n) result room.new }
{
    let a = put_bytes(room, at, name);
    put_numeral(room, a, 1, n as u64)
}

// Puts the section, by what it was chosen, and those tried earlier.
fn put_choice(room: &mut [u16], at: usize, w: WhyNumbers) -> usize
    requires { at < 2 ^ 59 }
    ensures within { result ≤ at + 136 }
    ensures put { Put room.old at (choice_units w) result room.new }
{
    let a = put_named(room, at, b" section=", w.section);
    let b = put_named(room, a, b" choice=", w.choice);
    let c = put_named(room, b, b" first=", w.first);
    put_named(room, c, b" second=", w.second)
}

// Puts the whole line.
pub fn put_line(room: &mut [u16], w: WhyNumbers) -> usize
    ensures within { result ≤ 239 }
    ensures put { Put room.old 0 (line_of w) result room.new }
{
    let a = put_named(room, 0, b"answer=", w.answer);
    let b = put_choice(room, a, w);
    let c = put_named(room, b, b" minus=", w.minus);
    let d = put_named(room, c, b" cut=", w.cut);
    put_unit(room, d, LINE_FEED)
}
