// How many integer places the items of a body have, and how many behind its E or solidus.
ghost use Rattle.std.specs.Prelude.{◌≡◌, cond, List, ℕ, ◌+◌, ◌≤◌, length};
ghost use Rattle.formats.specs.Kinds.{body_items};
ghost use Rattle.emitting.specs.Emit.{ToldOf};
ghost use Rattle.marks.specs.Marks.{tokens_in};
ghost use Rattle.bodies.specs.Bodies.{facts_of};
ghost use Rattle.drafting.specs.Places.{places_of, places_with, part_form, date_places_of};

use bodies::facts::Facts;
use emitting::Told;
use marks::{Mark, forms};

// The places before the point and the E or solidus, and those behind the E or solidus.
#[derive(Clone, Copy)]
struct Places {
    integers: u16,
    exponents: u16,
}

impl Places {
    // With a place more, if there is one: behind the E or solidus, where one was passed.
    fn with(self, place: bool, cut: bool) -> Places
        requires { (self.integers ≤ 254) × (self.exponents ≤ 254) }
        ensures { result ≡ places_with self place cut }
    {
        Places {
            integers: self.integers + u16::from(place & !cut),
            exponents: self.exponents + u16::from(place & cut),
        }
    }
}

// The places among the tokens of a date that were passed, and whether an E or solidus is among these (`cut`): whether the last token is s,
// ss or an elapsed s, and how many zeros may still belong to a part of a second.
#[derive(Clone, Copy)]
struct Parting {
    behind: bool,
    left: u16,
    cut: bool,
    places: Places,
}

// A part of a second has up to three zeros.
fn zeros_with(starts: bool) -> u16
    ensures { result ≡ cond starts 3 0 }
{
    if starts { 3 } else { 0 }
}

// The places with an E more, or with a place and its solidus. (Told apart from the others: few dates hold one.)
fn part_cut(s: Parting, form: u16) -> Parting
    requires { (25 ≤ form) × (s.places.integers ≤ 254) × (s.places.exponents ≤ 254) }
    ensures { result ≡ part_form s form }
{
    let place = (forms::ZERO_OVER..=forms::SPACE_OVER_FIXED).contains(&form);
    Parting {
        behind: false,
        left: 0,
        cut: s.cut | (form <= forms::SPACE_OVER_FIXED),
        places: s.places.with(place, s.cut),
    }
}

// The places with one token more.
fn part_token(s: Parting, form: u16) -> Parting
    requires { (s.places.integers ≤ 254) × (s.places.exponents ≤ 254) }
    ensures { result ≡ part_form s form }
{
    if (form == forms::ZERO_PLACE) & (0 < s.left) {
        return Parting {
            behind: false,
            left: s.left - 1,
            cut: s.cut,
            places: s.places,
        };
    }
    if forms::EXPONENT_PLUS <= form {
        return part_cut(s, form);
    }
    let place = (forms::ZERO_PLACE..=forms::SPACE_PLACE).contains(&form);
    Parting {
        behind: (form == forms::SECONDS) | (form == forms::ELAPSED_SECONDS),
        left: zeros_with(s.behind & (form == forms::POINT)),
        cut: s.cut,
        places: s.places.with(place, s.cut),
    }
}

// The places of a date's items: the zeros of a part of a second are none.
fn date_places(body: &[Mark]) -> Places
    requires { length body.now ≤ 254 }
    ensures { ((code : List ℕ) → result ≡ date_places_of (tokens_in code body.now)) × (result.integers ≤ 254) × (result.exponents ≤ 254) }
{
    let mut s = Parting {
        behind: false,
        left: 0,
        cut: false,
        places: Places {
            integers: 0,
            exponents: 0,
        },
    };
    for mark in body {
        s = part_token(s, mark.form);
    }
    s.places
}

// The places of a body whose facts these are.
fn places_of(body: &[Mark], f: Facts) -> Places
    requires { (length body.now ≤ 254) × ((code : List ℕ) → f ≡ facts_of (tokens_in code body.now)) }
    ensures { ((code : List ℕ) → result ≡ places_of (body_items (tokens_in code body.now))) × (result.integers ≤ 254) × (result.exponents ≤ 254) }
{
    if f.date {
        return date_places(body);
    }
    Places {
        integers: f.places,
        exponents: f.exponents,
    }
}

// What is told of a body whose facts these are, for the words of its items.
pub fn told_of(body: &[Mark], f: Facts) -> Told
    requires { (length body.now ≤ 254) × ((code : List ℕ) → f ≡ facts_of (tokens_in code body.now)) }
    ensures { (code : List ℕ) → ToldOf (tokens_in code body.now) result }
{
    let places = places_of(body, f);
    Told {
        date: f.date,
        fills: f.fills,
        integers: places.integers,
        exponents: places.exponents,
    }
}
