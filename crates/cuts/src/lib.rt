// How many decimals a rounding cuts: those of the exact number, written without trailing zeros, beyond those that are kept. And whether nothing is
// left of it.
#![tactic(auto)]

ghost use Rattle.std.specs.Prelude.{◌≡◌, ◌^◌, ◌≤◌, ◌<◌, eqb};
ghost use Rattle.figures.specs.Rounding.{rounded};
ghost use Rattle.figures.specs.Powers.{powered};
ghost use Rattle.figures.specs.General.{general_decimals, general_rounded};
ghost use Rattle.exponents.specs.Exponent.{decimal};
ghost use Rattle.cuts.specs.Cut.{decimals_cut, general_cut, mantissa_cut};

// Of m times 10^up / 10^down, where so many decimals are kept: the digits behind them, without the zeros at the end of m.
pub fn decimals_cut(m: u64, up: u32, down: u32, kept: u32) -> u16
    requires { (up ≤ 100) × (down ≤ 30) × (kept ≤ 15) }
    ensures { result ≡ decimals_cut (powered m up down) kept }
{
    let mut rest = m;
    for k in (0..down.saturating_sub(up + kept)).rev() {
        if rest % 10 != 0 {
            return (k + 1) as u16;
        }
        rest /= 10;
    }
    0
}

// Whether it rounds to nought.
pub fn rounds_to_nought(m: u64, up: u32, down: u32, kept: u32) -> bool
    requires { (up ≤ 100) × (kept ≤ 15) }
    ensures { result ≡ eqb (rounded (powered m up down) kept) 0 }
{
    let digits = up + kept;
    if digits < down {
        figures::divided(m, down - digits).nearest == 0
    } else {
        m == 0
    }
}

// To how many decimals General rounds m / 10^scale.
fn general_kept(m: u64, scale: u32) -> u32
    requires { scale ≤ 15 }
    ensures { (result ≤ 15) × (result ≡ general_decimals (powered m 0 scale)) }
{
    10u32.saturating_sub(figures::width_of(m / figures::power(scale)))
}

// Of m / 10^scale, as General rounds it.
pub fn general_cut(m: u64, scale: u32) -> u16
    requires { scale ≤ 15 }
    ensures { result ≡ general_cut (powered m 0 scale) }
{
    decimals_cut(m, 0, scale, general_kept(m, scale))
}

// Whether that rounds to nought.
pub fn general_nought(m: u64, scale: u32) -> bool
    requires { scale ≤ 15 }
    ensures { result ≡ eqb (general_rounded (powered m 0 scale)) 0 }
{
    rounds_to_nought(m, 0, scale, general_kept(m, scale))
}

// Of m / 10^scale in scientific form: of the mantissa before it is rounded, with the exponent that is shown.
pub fn scientific_cut(m: u64, scale: u32, integers: u32, decimals: u32) -> u16
    requires { (m < 10 ^ 15) × (scale ≤ 15) × (1 ≤ integers) × (integers ≤ 20) × (decimals ≤ 15) }
    ensures { result ≡ mantissa_cut (decimal m scale) integers decimals }
{
    let x = exponents::round_scientific(m, scale, integers, decimals);
    if x.below {
        decimals_cut(m, x.exponent, scale, decimals)
    } else {
        decimals_cut(m, 0, scale + x.exponent, decimals)
    }
}
