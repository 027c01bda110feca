// What programs need: rooms, their input read into a lent buffer, and its lines.
#![tactic(auto)]

ghost use Rattle.std.specs.Prelude.{◌≡◌, ◌+◌, ◌≤◌, ◌<◌, IfOk, drop, length, min, take};
ghost use Rattle.std.specs.Io.KnownBytes.{Consumes, IsAtEnd};
ghost use Rattle.std.specs.List.{position_or_len};

use std::io;
use std::io::Read;

// A room for N values. Only its length matters to proofs, and they would compute a literal of this size out.
pub fn room<T: Copy, const N: usize>(value: T) -> [T; N]
    ensures { length result ≡ N }
{
    [value; N]
}

// The place behind the line that starts at `at`, with its line feed where it has one.
pub fn line_end<T: Copy + PartialEq>(input: &[T], at: usize, line_feed: T) -> usize
    requires { at ≤ length input.now }
    ensures within { (at ≤ result) × (result ≤ length input.now) }
    ensures further { at < length input.now → at < result }
    ensures first { result ≡ min (at + position_or_len (λ x. T.eq x line_feed) (drop at input.now) + 1) (length input.now) }
{
    for (k, x) in input[at..].iter().enumerate() {
        if *x == line_feed {
            return at + k + 1;
        }
    }
    input.len()
}

// Reads until `buf` is full or the input ends, and returns how many bytes stand in front of `buf`.
pub fn read_full<R: Read>(from: &mut R, buf: &mut [u8]) -> io::Result<usize>
    ensures bound { IfOk result (λ n. n ≤ length buf.new) }
    ensures bytes { IfOk result (λ n. Consumes (R.remaining from.old) (R.remaining from.new) (take n buf.new)) }
    ensures end { IfOk result (λ n. n < length buf.new → IsAtEnd (R.remaining from.new)) }
{
    let mut done = 0;
    while done < buf.len() {
        let n = from.read(&mut buf[done..])?;
        if n == 0 {
            break;
        }
        done += n;
    }
    Ok(done)
}
