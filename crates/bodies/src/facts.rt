// The facts of a body, in one pass over its tokens.
ghost use Rattle.std.specs.Prelude.{◌≡◌, cond, ◌&&◌, true, List, ℕ, ◌≤◌, eqb, length};
ghost use Rattle.marks.specs.Marks.{tokens_in};
ghost use Rattle.bodies.specs.Forms.{weight_form};
ghost use Rattle.bodies.specs.Bodies.{seen, see_cut, see_other, see_form, Roomy, facts_of};

use marks::Mark;
use marks::forms::{
    AT, COLOUR, COMMA, CONDITION, DAYS, ELAPSED_HOURS, ELAPSED_MINUTES, ELAPSED_SECONDS,
    EXPONENT_MINUS, EXPONENT_PLUS, FILL, GENERAL, HOURS, MONTHS, POINT, SECONDS, SPACE_OVER_FIXED,
    SPACE_PLACE, YEARS, ZERO_PLACE,
};

// What a token adds to the sum of a body's, digits of base 256, as a body has 254 tokens at most: one to those that make it a number, a
// fraction, a scientific section, a date, General or a text, to its brackets, its fills or its commas.
const NUMBERS: u64 = 1;

const FRACTIONS: u64 = 1 << 8;

const EXPONENTS: u64 = 1 << 16;

const DATES: u64 = 1 << 24;

const GENERALS: u64 = 1 << 32;

const BRACKETS: u64 = 1 << 40;

const FILLS: u64 = 1 << 48;

const COMMAS: u64 = 1 << 56;

// What a place adds to the places, digits of base 65536: to the integer places up to the first point, E or solidus, and to the places
// behind the first E or solidus.
const INTEGER_PLACES: u64 = 1;

const LATER_PLACES: u64 = 1 << 16;

// What a body's tokens say of it: whether it is a date, scientific, a fraction or a number, whether it holds no colour and no condition,
// how many fills it holds, whether it holds a comma, how many places before its first point, E or solidus, and how many behind its first
// E or solidus.
#[derive(Clone, Copy)]
pub struct Facts {
    pub date: bool,
    pub scientific: bool,
    pub fraction: bool,
    pub number: bool,
    pub plain: bool,
    pub fills: u16,
    pub commas: bool,
    pub places: u16,
    pub exponents: u16,
}

// What the tokens passed have said, and what the next place adds (`unit`).
#[derive(Drop)]
struct Seen {
    sum: u64,
    unit: u64,
    places: u64,
}

// (An arm for each form, which makes it one load.)
#[tactic(auto, unfolding(crate::specs::Forms::date_forms, lists::specs::Lists::any))]
fn weight_of(form: u16) -> u64
    ensures { result ≡ weight_form form }
{
    match form {
        GENERAL => GENERALS,
        AT => GENERALS,
        COLOUR => BRACKETS,
        CONDITION => BRACKETS,
        FILL => FILLS,
        COMMA => COMMAS,
        YEARS => DATES,
        MONTHS => DATES,
        DAYS => DATES,
        HOURS => DATES,
        SECONDS => DATES,
        ELAPSED_HOURS => DATES,
        ELAPSED_MINUTES => DATES,
        ELAPSED_SECONDS => DATES,
        _ => 0,
    }
}

// What a place behind this token adds: nothing behind the first point.
fn unit_after(unit: u64, form: u16) -> u64
    ensures { result ≡ cond (eqb form 7 && eqb unit 1) 0 unit }
{
    if (form == POINT) & (unit == INTEGER_PLACES) {
        return 0;
    }
    unit
}

// What the tokens say with a place more. (Told apart from the others: most of these do not change the places.)
fn see_place(s: Seen) -> Seen
    requires { Roomy s }
    ensures { result ≡ seen s 1 s.unit true }
{
    Seen {
        sum: s.sum + NUMBERS,
        unit: s.unit,
        places: s.places + s.unit,
    }
}

// With an E more, or with a place and its solidus.
fn see_cut(s: Seen, form: u16) -> Seen
    requires { Roomy s }
    ensures { result ≡ see_cut s form }
{
    if form <= EXPONENT_MINUS {
        return Seen {
            sum: s.sum + EXPONENTS,
            unit: LATER_PLACES,
            places: s.places,
        };
    }
    Seen {
        sum: s.sum + FRACTIONS,
        unit: LATER_PLACES,
        places: s.places + s.unit,
    }
}

// With another token more.
fn see_other(s: Seen, form: u16) -> Seen
    requires { Roomy s }
    ensures { result ≡ see_other s form }
{
    Seen {
        sum: s.sum + weight_of(form),
        unit: unit_after(s.unit, form),
        places: s.places,
    }
}

// What the tokens say with one more.
fn see(s: Seen, form: u16) -> Seen
    requires { Roomy s }
    ensures { result ≡ see_form s form }
{
    match form {
        ZERO_PLACE..=SPACE_PLACE => see_place(s),
        EXPONENT_PLUS..=SPACE_OVER_FIXED => see_cut(s, form),
        _ => see_other(s, form),
    }
}

// The facts of a body.
pub fn facts_of(body: &[Mark]) -> Facts
    requires { length body.now ≤ 254 }
    ensures { (code : List ℕ) → result ≡ facts_of (tokens_in code body.now) }
{
    let mut s = Seen {
        sum: 0,
        unit: INTEGER_PLACES,
        places: 0,
    };
    for mark in body {
        s = see(s, mark.form);
    }
    let kinds = s.sum % BRACKETS;
    Facts {
        date: (DATES..GENERALS).contains(&kinds),
        scientific: (EXPONENTS..DATES).contains(&kinds),
        fraction: (FRACTIONS..EXPONENTS).contains(&kinds),
        number: (NUMBERS..FRACTIONS).contains(&kinds),
        plain: s.sum / BRACKETS % 256 == 0,
        fills: (s.sum / FILLS % 256) as u16,
        commas: COMMAS <= s.sum,
        places: (s.places % LATER_PLACES) as u16,
        exponents: (s.places / LATER_PLACES) as u16,
    }
}
