// Puts a line of numbers into a room: decimals, a space between each two.
ghost use Rattle.std.specs.Prelude.{◌≡◌, ◌+◌, ◌*◌, ◌≤◌, ◌<◌, ◌^◌, length};
ghost use Rattle.figures.specs.Digits.{numeral};
ghost use Rattle.writing.specs.Put.{Put};
ghost use Rattle.prepare_check.specs.Lines.{mark, spaced, spaced_all, line_of};

use writing::{put_numeral, put_unit};

const LINE_FEED: u16 = b'\n' as u16;

const SPACE: u16 = b' ' as u16;

const EXCLAMATION: u16 = b'!' as u16;

// Puts `!` where something is not sound.
fn put_mark(room: &mut [u16], at: usize, sound: bool) -> usize
    requires { at < 2 ^ 61 }
    ensures within { result ≤ at + 1 }
    ensures put { Put room.old at (mark sound) result room.new }
{
    if sound {
        at
    } else {
        put_unit(room, at, EXCLAMATION)
    }
}

// Puts a number.
fn put_number(room: &mut [u16], at: usize, n: u64) -> usize
    requires { at < 2 ^ 62 }
    ensures within { result ≤ at + 25 }
    ensures put { Put room.old at (numeral 1 n) result room.new }
{
    put_numeral(room, at, 1, n)
}

// Puts a space and a number.
fn put_spaced(room: &mut [u16], at: usize, n: u64) -> usize
    requires { at < 2 ^ 61 }
    ensures within { result ≤ at + 26 }
    ensures put { Put room.old at (spaced n) result room.new }
{
    let a = put_unit(room, at, SPACE);
    put_number(room, a, n)
}

// Puts each word behind a space.
fn put_words(room: &mut [u16], at: usize, words: &[u16]) -> usize
    requires { (at < 2 ^ 60) × (length words.now ≤ 557) }
    ensures within { result ≤ at + 26 * length words.now }
    ensures put { Put room.old at (spaced_all words.now) result room.new }
{
    let mut o = at;
    for word in words {
        o = put_spaced(room, o, u64::from(*word));
    }
    o
}

// Puts the whole line.
pub fn put_line(room: &mut [u16], sound: bool, answer: u16, place: u32, words: &[u16]) -> usize
    requires { length words.now ≤ 557 }
    ensures within { result ≤ 16384 }
    ensures put { Put room.old 0 (line_of sound answer place words.now) result room.new }
{
    let a = put_mark(room, 0, sound);
    let b = put_number(room, a, u64::from(answer));
    let c = put_spaced(room, b, u64::from(place));
    let d = put_spaced(room, c, words.len() as u64);
    let e = put_words(room, d, words);
    put_unit(room, e, LINE_FEED)
}
