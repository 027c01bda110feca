// The sign at the door, the rounder, the rounded number read place by place, and General.
#![tactic(auto)]

ghost use Rattle.std.specs.Prelude.{◌≡◌, ℕ, ◌+◌, ◌-◌, ◌*◌, ◌/◌, ◌%◌, ◌^◌, ◌≤◌, ◌<◌, leb, ltb, eqb, nat_abs};
ghost use Rattle.figures.specs.Digits.{figures, width};
ghost use Rattle.figures.specs.Rounding.{nearest, rounded, rounds_exactly};
ghost use Rattle.figures.specs.Powers.{powered};
ghost use Rattle.figures.specs.General.{general_rounded, general_exactly, general_too_wide};
ghost use Rattle.figures.specs.Sign.{taken_of};
ghost use Rattle.figures.specs.Rounder.{Roundable};
ghost use Rattle.figures.specs.Places.{digit_sum, places_used, lowest_from, lowest_place};

use values::Number;

// A number in range, its sign apart.
#[derive(Clone, Copy)]
pub struct Signed {
    pub negative: bool,
    pub magnitude: u64,
    pub scale: u32,
}

// The number without its sign, where it is in range; behind this door nothing is signed.
// No negation: that of the least coefficient would be out of range.
pub fn take_number(x: Number) -> Option<Signed>
    ensures { result ≡ taken_of x }
{
    let magnitude = x.coefficient.unsigned_abs();
    if (magnitude < 1000000000000000) & (x.scale <= 15) {
        return Some(Signed {
            negative: x.coefficient < 0,
            magnitude,
            scale: x.scale,
        });
    }
    None
}

// 10 to the k. (No table: a constant array would be built anew at each reading.)
pub fn power(k: u32) -> u64
    requires { k < 20 }
    ensures { result ≡ 10 ^ k }
{
    match k {
        0 => 1,
        1 => 10,
        2 => 100,
        3 => 1000,
        4 => 10000,
        5 => 100000,
        6 => 1000000,
        7 => 10000000,
        8 => 100000000,
        9 => 1000000000,
        10 => 10000000000,
        11 => 100000000000,
        12 => 1000000000000,
        13 => 10000000000000,
        14 => 100000000000000,
        15 => 1000000000000000,
        16 => 10000000000000000,
        17 => 100000000000000000,
        18 => 1000000000000000000,
        _ => 10000000000000000000,
    }
}

// A quotient to the nearest whole number, and whether nothing was cut.
#[derive(Clone, Copy)]
pub struct Quotient {
    pub nearest: u64,
    pub exact: bool,
}

// m / 10^k to the nearest whole number, halves up. 64 bits are less than half of 10^20.
pub fn divided(m: u64, k: u32) -> Quotient
    ensures nearest { result.nearest ≡ nearest m (10 ^ k) }
    ensures exact { result.exact ≡ eqb (nearest m (10 ^ k) * 10 ^ k) m }
{
    if 19 < k {
        return Quotient {
            nearest: 0,
            exact: m == 0,
        };
    }
    let p = power(k);
    let q = m / p;
    let r = m % p;
    Quotient {
        nearest: q + u64::from(p - r <= r),
        exact: r == 0,
    }
}

// The digits of m times 10^z, whatever the digits were: two a turn are put into zeros.
fn spread(mut digits: [u8; 40], m: u64, z: u32) -> [u8; 40]
    requires { m * 10 ^ z < 10 ^ 40 }
    ensures { result ≡ figures (m * 10 ^ z) }
{
    digits.fill(0);
    let mut rest = m;
    let mut k = z as usize;
    while 9 < rest {
        let two = rest % 100;
        digits[k] = (two % 10) as u8;
        digits[k + 1] = (two / 10) as u8;
        rest /= 100;
        k += 2;
    }
    if rest == 0 {
        return digits;
    }
    digits[k] = rest as u8;
    digits
}

// The rounder: m times 10^up / 10^down rounded to so many decimals, halves up, whatever the digits were.
// One quotient where digits go, none where none goes. Whether the rounded number equals the exact one is told through `exact`: a struct
// of both would be copied, digits and all.
pub fn round(
    digits: [u8; 40],
    m: u64,
    up: u32,
    down: u32,
    decimals: u32,
    exact: &mut bool,
) -> [u8; 40]
    requires { Roundable m up decimals }
    ensures digits { result ≡ figures (rounded (powered m up down) decimals) }
    ensures exact { exact.new ≡ rounds_exactly (powered m up down) decimals }
{
    let kept = up + decimals;
    if kept < down {
        let q = divided(m, down - kept);
        *exact = q.exact;
        return spread(digits, q.nearest, 15 - decimals);
    }
    *exact = true;
    spread(digits, m, up + 15 - down)
}

// The four digits from k on as one word, so that one test tells four zeros.
fn word_at(digits: [u8; 40], k: usize) -> u32
    requires { k ≤ 36 }
    ensures { result ≡ 0 → digit_sum digits k 4 ≡ 0 }
{
    u32::from_le_bytes([digits[k], digits[k + 1], digits[k + 2], digits[k + 3]])
}

// A place from which on all digits are 0, found four digits at a time: most numbers have few.
fn top_of(digits: [u8; 40]) -> usize
    ensures { (result ≤ 40) × (places_used result digits ≡ places_used 40 digits) }
{
    for word in (1..10).rev() {
        if word_at(digits, 4 * word) != 0 {
            return 4 * word + 4;
        }
    }
    4
}

// A place below which all digits are 0.
fn bottom_of(digits: [u8; 40]) -> usize
    ensures { (result ≤ 40) × (lowest_from (40 - result) result digits ≡ lowest_place digits) }
{
    for word in 0..9 {
        if word_at(digits, 4 * word) != 0 {
            return 4 * word;
        }
    }
    36
}

// How many places there are up to the highest digit that is not 0; 0 where all are 0.
// An integer zero at place q is insignificant where this is at most q.
pub fn places_used(digits: [u8; 40]) -> usize
    ensures list { result ≡ places_used 40 digits }
    ensures number { (n : ℕ) → n < 10 ^ 40 → digits ≡ figures n → (q : ℕ) → leb result q ≡ eqb (n / 10 ^ q) 0 }
{
    for k in (0..top_of(digits)).rev() {
        if digits[k] != 0 {
            return k + 1;
        }
    }
    0
}

// The lowest place whose digit is not 0; 40 where all are 0.
// A decimal zero at place q is insignificant where q is below this.
pub fn lowest_place(digits: [u8; 40]) -> usize
    ensures list { result ≡ lowest_place digits }
    ensures number { (n : ℕ) → digits ≡ figures n → (q : ℕ) → q < 40 → ltb q result ≡ eqb (n % 10 ^ (q + 1)) 0 }
{
    for k in bottom_of(digits)..40 {
        if digits[k] != 0 {
            return k;
        }
    }
    40
}

// m / 10^k without what is behind the point.
fn whole(m: u64, k: u32) -> u64
    ensures { result ≡ m / 10 ^ k }
{
    if 19 < k {
        return 0;
    }
    m / power(k)
}

// How many digits n has when it is written out. (No table: a constant array would be built anew at each reading.)
pub fn width_of(n: u64) -> u32
    ensures { result ≡ width n }
{
    let mut w = 1;
    let mut p = 10;
    while p <= n {
        if w == 19 {
            return 20;
        }
        w += 1;
        p *= 10;
    }
    w
}

// To how many decimals m / 10^scale is rounded as General rounds it. Of ten digits nothing is cut: no width is needed for them.
fn general_decimals(m: u64, scale: u32) -> u32
    ensures { (result ≤ 15) × (rounded (powered m 0 scale) result ≡ general_rounded (powered m 0 scale)) }
{
    if (m < 10000000000) & (scale <= 9) {
        return scale;
    }
    10u32.saturating_sub(width_of(whole(m, scale)))
}

// Whether m / 10^scale, rounded to a whole number, reaches 10^11.
pub fn general_too_wide(m: u64, scale: u32) -> bool
    ensures { result ≡ general_too_wide (powered m 0 scale) }
{
    if m < 100000000000 {
        return false;
    }
    100000000000 <= divided(m, scale).nearest
}

// m / 10^scale as General rounds it; `exact`: whether it equals the exact one.
pub fn round_general(digits: [u8; 40], m: u64, scale: u32, exact: &mut bool) -> [u8; 40]
    ensures digits { result ≡ figures (general_rounded (powered m 0 scale)) }
    ensures exact { exact.new ≡ general_exactly (powered m 0 scale) }
{
    round(digits, m, 0, scale, general_decimals(m, scale), exact)
}
