// A number in scientific form: its mantissa and its exponent, exactly. The exponent is found from the width of the number and is one multiple
// further where rounding carries, so that one rounding is enough.
#![tactic(auto)]

ghost use Rattle.std.specs.Prelude.{◌≡◌, ℕ, ◌+◌, ◌-◌, ◌^◌, ◌≤◌, ◌<◌, leb, ltb};
ghost use Rattle.figures.specs.Digits.{figures};
ghost use Rattle.figures.specs.Rounding.{rounded, rounds_exactly};
ghost use Rattle.figures.specs.Powers.{powered};
ghost use Rattle.figures.specs.Rounder.{Roundable};
ghost use Rattle.exponents.specs.Exponent.{decimal, exponent_of, mantissa_of, mantissa_exactly};
ghost use Rattle.exponents.specs.Leading.{MultipleBy, Leading, Next};

// The digits of the mantissa, whether it is exact, the exponent's distance from 0 and whether it is below 0.
#[derive(Clone, Copy)]
pub struct Scientific {
    pub digits: [u8; 40],
    pub exact: bool,
    pub exponent: u32,
    pub below: bool,
}

// An exponent as its distance below 0 and its distance above 0, one of which is 0. (Both are kept, and no sign: the rounder takes one as a
// power up and the other as a power down.)
#[derive(Drop)]
struct Power {
    under: u32,
    over: u32,
}

// The multiple of the integer places at or below the power of the leading digit of m / 10^scale.
fn leading_multiple(m: u64, scale: u32, integers: u32) -> Power
    requires { (0 < m) × (m < 10 ^ 15) × (scale ≤ 15) × (1 ≤ integers) × (integers ≤ 20) }
    ensures { Leading m scale integers result.under result.over }
{
    let w = figures::width_of(m);
    if w <= scale {
        let zeros = scale - w;
        return Power {
            under: zeros - zeros % integers + integers,
            over: 0,
        };
    }
    let p = w - 1 - scale;
    Power {
        under: 0,
        over: p - p % integers,
    }
}

// The multiple behind it.
fn next_multiple(e: Power, integers: u32) -> Power
    requires { (MultipleBy integers e.under e.over) × (integers ≤ 20) × (e.over ≤ 14) }
    ensures { Next integers e.under e.over result.under result.over }
{
    if 0 < e.under {
        return Power {
            under: e.under - integers,
            ..e
        };
    }
    Power {
        over: e.over + integers,
        ..e
    }
}

// m times 10^up / 10^down rounded: only the net power counts, which the rounder's reach is of.
fn rounded_by(m: u64, up: u32, down: u32, decimals: u32, exact: &mut bool) -> [u8; 40]
    requires { Roundable m (up - down) decimals }
    ensures digits { result ≡ figures (rounded (powered m up down) decimals) }
    ensures exact { exact.new ≡ rounds_exactly (powered m up down) decimals }
{
    figures::round(
        [0; 40],
        m,
        up.saturating_sub(down),
        down.saturating_sub(up),
        decimals,
        exact,
    )
}

// Whether there is a digit more before the point than there are integer places. Rounding carries to 10^integers at most.
fn carries(digits: [u8; 40], integers: u32) -> bool
    requires { integers ≤ 20 }
    ensures { (n : ℕ) → n ≤ 10 ^ (15 + integers) → digits ≡ figures n → result ≡ leb (10 ^ (15 + integers)) n }
{
    let place = 15 + integers as usize;
    digits[place] != 0
}

// The digits of 1.
fn one() -> [u8; 40]
    ensures { result ≡ figures (10 ^ 15) }
{
    let mut digits = [0; 40];
    digits[15] = 1;
    digits
}

// The form with these digits, exact or not, and this exponent.
fn told(digits: [u8; 40], exact: bool, e: Power) -> Scientific
    requires { e.under + e.over ≤ 100 }
    ensures { (result.digits ≡ digits) × (result.exact ≡ exact) × (result.exponent ≡ e.under + e.over) × (result.below ≡ ltb 0 e.under) }
{
    Scientific {
        digits,
        exact,
        exponent: e.under + e.over,
        below: 0 < e.under,
    }
}

// m / 10^scale in scientific form, under so many integer places and decimals. What carries is not exact: before it is rounded it is below.
pub fn round_scientific(m: u64, scale: u32, integers: u32, decimals: u32) -> Scientific
    requires { (m < 10 ^ 15) × (scale ≤ 15) × (1 ≤ integers) × (integers ≤ 20) × (decimals ≤ 15) }
    ensures mantissa { result.digits ≡ figures (mantissa_of (decimal m scale) integers decimals) }
    ensures exact { result.exact ≡ mantissa_exactly (decimal m scale) integers decimals }
    ensures size { result.exponent ≡ (exponent_of (decimal m scale) integers decimals).size }
    ensures sign { result.below ≡ (exponent_of (decimal m scale) integers decimals).below }
{
    if m == 0 {
        return Scientific {
            digits: [0; 40],
            exact: true,
            exponent: 0,
            below: false,
        };
    }
    let e = leading_multiple(m, scale, integers);
    let mut exact = true;
    let digits = rounded_by(m, e.under, scale + e.over, decimals, &mut exact);
    if carries(digits, integers) {
        return told(one(), false, next_multiple(e, integers));
    }
    told(digits, exact, e)
}
