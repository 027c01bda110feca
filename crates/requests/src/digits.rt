// Digits of a lent run of units.
ghost use Rattle.std.specs.Prelude.{◌≡◌, map, ◌-◌, ◌^◌, ◌≤◌, min, T};
ghost use Rattle.lists.specs.Lists.{every};
ghost use Rattle.formats.specs.Tokens.{is_digit, digit_of, number_from};
ghost use Rattle.requests.specs.Written.{is_digits};

use lexing::scan::are_digits;

const ZERO: u16 = b'0' as u16;

// One digit or more, and nothing else.
pub fn is_digits(us: &[u16]) -> bool
    ensures { result ≡ is_digits us.now }
{
    !us.is_empty() & are_digits(us)
}

// The digit that a unit writes.
fn digit_of(u: u16) -> u64
    requires { (48 ≤ u) × (u ≤ 57) }
    ensures { (result ≡ u - 48) × (result ≤ 9) }
{
    u64::from(u - ZERO)
}

// The number that digits write behind those of v, or the limit where it is larger. It never grows past the limit, so that any
// count of digits can be read.
pub fn number_behind(v: u64, us: &[u16], limit: u64) -> u64
    requires { (v ≤ limit) × (limit ≤ 10 ^ 15) × T (every is_digit us.now) }
    ensures { result ≡ min (number_from v (map digit_of us.now)) limit }
{
    let mut n = v;
    for u in us {
        n = (10 * n + digit_of(*u)).min(limit);
    }
    n
}
