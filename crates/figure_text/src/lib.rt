// Writes a number's figures into a lent room, placeholder by placeholder. A store past the room's end is dropped.
#![tactic(auto)]

ghost use Rattle.std.specs.Prelude.{◌≡◌, cond, not, ◌&&◌, [], ◌∷◌, ℕ, suc, ◌+◌, ◌-◌, ◌/◌, ◌%◌, ◌^◌, ◌≤◌, ◌<◌, eqb, take};
ghost use Rattle.figures.specs.Digits.{figures, digit_units};
ghost use Rattle.figures.specs.General.{pointed, general_units};
ghost use Rattle.formats.specs.Text.{Context, insignificant, ends_group, figure_units, extra_units, place_units, point_units};
ghost use Rattle.writing.specs.Put.{Put};
ghost use Rattle.figure_text.specs.Shown.{FiguresAre, place_of_tag, separated, first_place, figures_with, units_before};

use tables::tags;
use writing::{digit_unit, put_unit, units};

// The place of 10^0 among the forty digits: the decimals stand below it.
const UNITS_PLACE: usize = 15;

// No digit has this place. (A number and no `Option`: each place shown is compared with it, at once.)
const NO_PLACE: usize = 40;

// How a rounded number's digits, that of 10^-15 first, are shown: how many places are used, the place of the digit that the
// section's first integer place shows, and whether it groups. The digits are lent beside it: copied, they would be copied at
// each place.
#[derive(Clone, Copy)]
pub struct Figures {
    pub used: usize,
    pub first: usize,
    pub grouped: bool,
}

// The place of the digit that the first of so many integer places shows.
fn first_place(integers: u32) -> usize
    ensures { result ≡ first_place integers }
{
    if integers == 0 {
        NO_PLACE
    } else {
        14 + integers as usize
    }
}

// The figures of a section: those of every context with this number, these integer places and this grouping (`figures-are`).
pub fn figures_of(digits: [u8; 40], integers: u32, grouped: bool) -> Figures
    ensures made { result ≡ figures_with digits integers grouped }
    ensures most { result.used ≤ 40 }
{
    Figures {
        used: figures::places_used(digits),
        first: first_place(integers),
        grouped,
    }
}

// Whether the digits from the lowest up to q are 0.
fn is_spent(digits: &[u8; 40], q: usize) -> bool
    requires { q < 40 }
    ensures { (n : ℕ) → digits.now ≡ figures n → result ≡ eqb (n % 10 ^ suc q) 0 }
{
    digits[..=q].iter().all(|d| *d == 0)
}

// Whether a place, told by its tag, shows the digit at q as an insignificant zero; `0` shows each digit as it is.
fn is_idle(digits: &[u8; 40], f: Figures, place: u16, q: usize) -> bool
    requires { q < 40 }
    ensures { (c : Context) → FiguresAre digits.now f c → result ≡ not (eqb place 4) && insignificant c.figures q }
{
    if place == tags::ZERO_PLACE {
        return false;
    }
    if UNITS_PLACE <= q {
        return f.used <= q;
    }
    is_spent(digits, q)
}

// Whether the digit at q is that of 10^3, 10^6 and so on. (An arm for each: the test is then of one bit.)
#[tactic(auto, unfolding(formats::specs::Text::ends_group))]
fn ends_group(q: usize) -> bool
    requires { q < 40 }
    ensures { result ≡ ends_group q }
{
    match q {
        18 => true,
        21 => true,
        24 => true,
        27 => true,
        30 => true,
        33 => true,
        36 => true,
        39 => true,
        _ => false,
    }
}

// What follows a unit at the end of a group.
fn separator(u: u16) -> u16
    ensures { result ≡ cond (eqb u 32) 32 44 }
{
    if u == units::SPACE {
        units::SPACE
    } else {
        units::COMMA
    }
}

// Puts a unit of the digit at q, with the separator behind it where one is due.
fn put_shown(room: &mut [u16], at: usize, u: u16, grouped: bool, q: usize) -> usize
    requires { (at + 2 < 2 ^ 63) × (q < 40) }
    ensures within { result ≤ at + 2 }
    ensures put { Put room.old at (separated grouped q (u ∷ [])) result room.new }
{
    let a = put_unit(room, at, u);
    if grouped & ends_group(q) {
        return put_unit(room, a, separator(u));
    }
    a
}

// Puts what an insignificant zero at q shows: nothing under `#`, a space under `?`.
fn put_idle(room: &mut [u16], at: usize, place: u16, grouped: bool, q: usize) -> usize
    requires { (at + 2 < 2 ^ 63) × (q < 40) }
    ensures within { result ≤ at + 2 }
    ensures put { Put room.old at (separated grouped q (cond (eqb place 5) [] (32 ∷ []))) result room.new }
{
    if place == tags::HASH_PLACE {
        return at;
    }
    put_shown(room, at, units::SPACE, grouped, q)
}

// Puts what a place, told by its tag, shows of the digit at q.
fn put_figure(
    room: &mut [u16],
    at: usize,
    digits: &[u8; 40],
    f: Figures,
    place: u16,
    q: usize,
) -> usize
    requires { (at + 2 < 2 ^ 63) × (q < 40) }
    ensures within { result ≤ at + 2 }
    ensures put { (c : Context) → FiguresAre digits.now f c
        → Put room.old at (figure_units c.figures c.grouped (place_of_tag place) q) result room.new }
{
    if is_idle(digits, f, place, q) {
        return put_idle(room, at, place, f.grouped, q);
    }
    put_shown(room, at, digit_unit(digits[q]), f.grouped, q)
}

// Puts the digits beyond the places: from the highest one used down to q.
fn put_extra(room: &mut [u16], at: usize, digits: &[u8; 40], f: Figures, q: usize) -> usize
    requires { (at < 2 ^ 62) × (f.used ≤ 40) }
    ensures within { result ≤ at + 80 }
    ensures put { (c : Context) → FiguresAre digits.now f c → 15 ≤ q → q ≤ 40
        → Put room.old at (extra_units c.figures c.grouped q (40 - q)) result room.new }
{
    let mut o = at;
    for k in (q..f.used).rev() {
        o = put_shown(room, o, digit_unit(digits[k]), f.grouped, k);
    }
    o
}

// Puts the digits beyond the places that go in before the digit at q: where it is the first integer place's.
fn put_before(room: &mut [u16], at: usize, digits: &[u8; 40], f: Figures, q: usize) -> usize
    requires { (at < 2 ^ 62) × (f.used ≤ 40) × (q < 40) }
    ensures within { result ≤ at + 80 }
    ensures put { (c : Context) → FiguresAre digits.now f c → Put room.old at (units_before c q) result room.new }
{
    if q == f.first {
        return put_extra(room, at, digits, f, q + 1);
    }
    at
}

// Puts what a place, told by its tag, shows of the digit at q, with the digits beyond the places where they go in.
pub fn put_place(
    room: &mut [u16],
    at: usize,
    digits: &[u8; 40],
    f: Figures,
    place: u16,
    q: usize,
) -> usize
    requires { (at < 2 ^ 62) × (f.used ≤ 40) × (q < 40) }
    ensures within { result ≤ at + 82 }
    ensures put { (c : Context) → FiguresAre digits.now f c
        → Put room.old at (place_units c (place_of_tag place) q) result room.new }
{
    let a = put_before(room, at, digits, f, q);
    put_figure(room, a, digits, f, place, q)
}

// Puts the point, with the integer digits before it where the section has no integer place.
pub fn put_point(room: &mut [u16], at: usize, digits: &[u8; 40], f: Figures) -> usize
    requires { (at < 2 ^ 62) × (f.used ≤ 40) }
    ensures within { result ≤ at + 81 }
    ensures put { (c : Context) → FiguresAre digits.now f c → Put room.old at (point_units c) result room.new }
{
    if f.first == NO_PLACE {
        let a = put_extra(room, at, digits, f, UNITS_PLACE);
        return put_unit(room, a, units::POINT);
    }
    put_unit(room, at, units::POINT)
}

// Puts the digits from below `high` down to `low`.
fn put_run(room: &mut [u16], at: usize, digits: &[u8; 40], high: usize, low: usize) -> usize
    requires { (at < 2 ^ 62 + 50) × (high ≤ 40) }
    ensures within { result ≤ at + 40 }
    ensures put { (n : ℕ) → digits.now ≡ figures n
        → Put room.old at (digit_units (high - low) (n / 10 ^ low)) result room.new }
{
    let mut o = at;
    for k in (low..high).rev() {
        o = put_unit(room, o, digit_unit(digits[k]));
    }
    o
}

// Puts a point and the decimals down to the lowest that is not 0, or nothing where there is none.
fn put_decimals(room: &mut [u16], at: usize, digits: &[u8; 40], lowest: usize) -> usize
    requires { at < 2 ^ 62 + 49 }
    ensures within { result ≤ at + 41 }
    ensures put { (n : ℕ) → digits.now ≡ figures n
        → Put room.old at (pointed (take (15 - lowest) (digit_units 15 n))) result room.new }
{
    if lowest < UNITS_PLACE {
        let a = put_unit(room, at, units::POINT);
        return put_run(room, a, digits, UNITS_PLACE, lowest);
    }
    at
}

// Puts a number as General shows it: its integer digits, at least that of 10^0, and its decimals without the zeros at their end.
pub fn put_general(room: &mut [u16], at: usize, digits: &[u8; 40], f: Figures) -> usize
    requires { (at < 2 ^ 62) × (f.used ≤ 40) }
    ensures within { result ≤ at + 81 }
    ensures put { (c : Context) → FiguresAre digits.now f c → Put room.old at (general_units c.figures) result room.new }
{
    let a = put_run(room, at, digits, f.used.max(16), UNITS_PLACE);
    put_decimals(room, a, digits, figures::lowest_place(*digits))
}
