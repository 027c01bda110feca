// The nearest fraction of a number, and the nearest numerator over a fixed one, exactly.
#![tactic(auto)]

ghost use Rattle.std.specs.Prelude.{◌≡◌, ℕ, ◌+◌, ◌*◌, ◌/◌, ◌^◌, ◌≤◌, ◌<◌, min, eqb};
ghost use Rattle.figures.specs.Rounding.{Magnitude};
ghost use Rattle.exponents.specs.Exponent.{decimal};
ghost use Rattle.fractions.specs.Fractions.{over, nearest_up_to, nearest_fraction, fraction_of, mixed_exactly};
ghost use Rattle.fractions.specs.Nearest.{NearestFraction};
ghost use Rattle.fractions.specs.Moves.{told_of, at, Between, moved_to, Movable};

// above / below.
#[derive(Clone, Copy)]
pub struct Fraction {
    pub above: u64,
    pub below: u64,
}

// A whole number and above / below.
#[derive(Clone, Copy)]
pub struct Mixed {
    pub whole: u64,
    pub above: u64,
    pub below: u64,
}

// The nearest of the numbers allowed, and whether it is the number itself.
#[derive(Clone, Copy)]
pub struct Nearest {
    pub mixed: Mixed,
    pub exact: bool,
}

// A fraction on one side of a number, and how far it is from it, times both denominators.
#[derive(Clone, Copy)]
struct Side {
    above: u64,
    below: u64,
    rest: u64,
}

// As many steps as are wanted, or as there is room for. The room is divided only where it is too small.
fn steps(wanted: u64, room: u64, step: u64) -> u64
    requires { (wanted ≤ 10 ^ 15) × (1 ≤ step) × (step ≤ 999) }
    ensures { result ≡ min wanted (room / step) }
{
    let length = wanted * step;
    if length <= room { wanted } else { room / step }
}

// The near side moved towards the far one.
fn moved(near: Side, far: Side, most: u64) -> Side
    requires { Movable near far most }
    ensures { result ≡ moved_to near far most }
{
    let k = steps(near.rest / far.rest, most - near.below, far.below);
    Side {
        above: near.above + k * far.above,
        below: near.below + k * far.below,
        rest: near.rest - k * far.rest,
    }
}

fn fraction_at(s: Side) -> Fraction
    ensures { result ≡ at s }
{
    Fraction {
        above: s.above,
        below: s.below,
    }
}

// The nearer of two neighbours, at a tie the one with the smaller denominator. (By tests in a row: with `cmp` and `then` a fraction takes some
// four instructions more.)
fn preferred(low: Side, high: Side) -> Fraction
    requires { (low.rest * high.below ≤ 10 ^ 15) × (high.rest * low.below ≤ 10 ^ 15) }
    ensures { (x : Magnitude) (most : ℕ) → 0 < x.below → Between x most low high → most < low.below + high.below → NearestFraction x most result }
{
    let to_low = low.rest * high.below;
    let to_high = high.rest * low.below;
    if to_low < to_high {
        return fraction_at(low);
    }
    if to_high < to_low {
        return fraction_at(high);
    }
    if low.below < high.below {
        return fraction_at(low);
    }
    fraction_at(high)
}

// The fraction nearest to rest / whole with a denominator up to most. Two neighbours close in on the number: no fraction between them has a denominator
// below the sum of theirs.
fn nearest_part(rest: u64, whole: u64, most: u64) -> Fraction
    requires { (rest < whole) × (whole ≤ 10 ^ 15) × (2 ≤ most) × (most ≤ 999) }
    ensures { result ≡ nearest_up_to most (record { above = rest; below = whole }) }
{
    let mut low = Side {
        above: 0,
        below: 1,
        rest,
    };
    let mut high = Side {
        above: 1,
        below: 1,
        rest: whole - rest,
    };
    while low.below + high.below <= most {
        if high.rest == 0 {
            return fraction_at(high);
        }
        low = moved(low, high, most);
        if low.rest == 0 {
            return fraction_at(low);
        }
        high = moved(high, low, most);
    }
    preferred(low, high)
}

// The whole number and the fraction of the part behind the point, or both as one fraction.
#[tactic(auto, unfolding(crate::specs::Moves::told_of, crate::specs::Moves::shifted, crate::specs::Fractions::carried, crate::specs::Fractions::unparted))]
fn told(whole: u64, part: Fraction, parted: bool) -> Mixed
    requires { (whole < 10 ^ 15) × (part.above ≤ 999) × (part.below ≤ 999) }
    ensures { result ≡ told_of parted whole part }
{
    let Fraction { above, below } = part;
    if parted {
        if above == below {
            Mixed {
                whole: whole + 1,
                above: 0,
                below,
            }
        } else {
            Mixed {
                whole,
                above,
                below,
            }
        }
    } else {
        Mixed {
            whole: 0,
            above: above + whole * below,
            below,
        }
    }
}

// Whether a fraction is rest / whole itself. Both products are below 10^18.
fn is_met(part: Fraction, rest: u64, whole: u64) -> bool
    requires { (part.above ≤ 999) × (part.below ≤ 999) × (rest < whole) × (whole ≤ 10 ^ 15) }
    ensures { result ≡ eqb (part.above * whole) (rest * part.below) }
{
    part.above * whole == rest * part.below
}

// The nearest fraction of m / 10^scale with a denominator of so many digits at most.
pub fn nearest_fraction(m: u64, scale: u32, parted: bool, places: u32) -> Nearest
    requires { (m < 10 ^ 15) × (scale ≤ 15) × (1 ≤ places) × (places ≤ 3) }
    ensures mixed { result.mixed ≡ fraction_of parted (nearest_fraction places) (decimal m scale) }
    ensures exact { result.exact ≡ mixed_exactly (decimal m scale) result.mixed }
{
    let unit = figures::power(scale);
    let rest = m % unit;
    let part = nearest_part(rest, unit, figures::power(places) - 1);
    Nearest {
        mixed: told(m / unit, part, parted),
        exact: is_met(part, rest, unit),
    }
}

// The nearest fraction of m / 10^scale over a fixed number.
pub fn fixed_fraction(m: u64, scale: u32, parted: bool, fixed: u32) -> Nearest
    requires { (m < 10 ^ 15) × (scale ≤ 15) × (1 ≤ fixed) × (fixed ≤ 999) }
    ensures mixed { result.mixed ≡ fraction_of parted (over fixed) (decimal m scale) }
    ensures exact { result.exact ≡ mixed_exactly (decimal m scale) result.mixed }
{
    let unit = figures::power(scale);
    let below = u64::from(fixed);
    let q = figures::divided(m % unit * below, scale);
    let part = Fraction {
        above: q.nearest,
        below,
    };
    Nearest {
        mixed: told(m / unit, part, parted),
        exact: q.exact,
    }
}
