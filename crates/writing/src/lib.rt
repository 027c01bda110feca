// Writes pieces of a text into a lent room. A store past the room's end is dropped, so that one walker can measure a text,
// into an empty part of a room, and write it.
#![tactic(auto)]

pub mod units;

ghost use Rattle.std.specs.Prelude.{◌≡◌, [], ◌∷◌, ◌+◌, ◌<◌, ◌^◌, length};
ghost use Rattle.figures.specs.Digits.{digit_unit, digit_units, numeral};
ghost use Rattle.writing.specs.Put.{Put};

// Puts one unit at `at`.
pub fn put_unit(room: &mut [u16], at: usize, u: u16) -> usize
    requires { at < 2 ^ 63 }
    ensures { Put room.old at (u ∷ []) result room.new }
{
    let next = at + 1;
    if at < room.len() {
        room[at] = u;
    }
    next
}

// Puts a run at `at`: as much of it as the room holds is copied with no test for each unit. (By number: with `copy_from_slice` the archive
// needs `memmove` from outside.)
pub fn put_units(room: &mut [u16], at: usize, text: &[u16]) -> usize
    requires { at + length text.now < 2 ^ 63 }
    ensures { Put room.old at text.now result room.new }
{
    let end = at + text.len();
    let stop = end.min(room.len());
    for o in at..stop {
        room[o] = text[o - at];
    }
    end
}

// The unit that shows a digit.
pub fn digit_unit(d: u8) -> u16
    ensures { result ≡ digit_unit d }
{
    units::ZERO + u16::from(d)
}

// Puts the `count` lowest digits of n at `at`. They are found the last one first, by one division each; where the room ends
// before `at`, none is looked for.
pub fn put_digits(room: &mut [u16], at: usize, count: u32, n: u64) -> usize
    requires { at + count < 2 ^ 63 }
    ensures { Put room.old at (digit_units count n) result room.new }
{
    let end = at + count as usize;
    if room.len() <= at {
        return end;
    }
    let mut rest = n;
    for o in (at..end).rev() {
        put_unit(room, o, digit_unit((rest % 10) as u8));
        rest /= 10;
    }
    end
}

// Puts a number below 100 at `at`, in two digits.
fn put_two(room: &mut [u16], at: usize, n: u64) -> usize
    requires { (at < 2 ^ 62) × (n < 100) }
    ensures { Put room.old at (digit_units 2 n) result room.new }
{
    let a = put_unit(room, at, digit_unit((n / 10) as u8));
    put_unit(room, a, digit_unit((n % 10) as u8))
}

// Puts n at `at`, with zeros in front up to `least` digits.
fn put_wide(room: &mut [u16], at: usize, least: u32, n: u64) -> usize
    requires { at < 2 ^ 62 }
    ensures { Put room.old at (numeral least n) result room.new }
{
    let w = figures::width_of(n);
    if w < least {
        return put_digits(room, at, least, n);
    }
    put_digits(room, at, w, n)
}

// Puts n as `put_wide` does; one or two digits, as of a day or a minute, with no loop.
pub fn put_numeral(room: &mut [u16], at: usize, least: u32, n: u64) -> usize
    requires { at < 2 ^ 62 }
    ensures { Put room.old at (numeral least n) result room.new }
{
    if 99 < n {
        return put_wide(room, at, least, n);
    }
    if 2 < least {
        return put_wide(room, at, least, n);
    }
    if least == 2 {
        return put_two(room, at, n);
    }
    if 9 < n {
        return put_two(room, at, n);
    }
    put_unit(room, at, digit_unit(n as u8))
}
