// The uses of a body's commas, in one pass over its tokens.
ghost use Rattle.std.specs.Prelude.{◌≡◌, List, ℕ, ◌≤◌, length};
ghost use Rattle.lists.specs.Lists.{any};
ghost use Rattle.formats.specs.Kinds.{is_comma};
ghost use Rattle.marks.specs.Marks.{tokens_in};
ghost use Rattle.bodies.specs.Uses.{met, at_comma, at_point, at_place, scan_form, commas_of};

use super::facts::Facts;
use marks::Mark;
use marks::forms::{COMMA, POINT, SPACE_PLACE, ZERO_PLACE};

// The commas of a body: whether one is misplaced, whether one asks for grouping, and how many divide by 1,000.
#[derive(Clone, Copy)]
pub struct Commas {
    pub misplaced: bool,
    pub grouped: bool,
    pub thousands: u16,
}

// The commas of the tokens passed, with whether the point and a place are among these. The use of those held depends on what follows.
#[derive(Clone, Copy)]
struct Scan {
    point: bool,
    place: bool,
    held: u16,
    misplaced: u16,
    grouping: u16,
    dividing: u16,
}

// A comma is misplaced before the first place; behind it its use depends on what follows.
fn at_comma(s: Scan) -> Scan
    requires { met s ≤ 254 }
    ensures { result ≡ at_comma s }
{
    let mut t = s;
    if s.place {
        t.held += 1;
        return t;
    }
    t.misplaced += 1;
    t
}

// The commas held before the first point divide.
fn at_point(s: Scan) -> Scan
    requires { met s ≤ 254 }
    ensures { result ≡ at_point s }
{
    if s.point {
        return s;
    }
    let mut t = s;
    t.point = true;
    t.dividing += s.held;
    t.held = 0;
    t
}

// The commas held before a place are misplaced behind the point, and ask for grouping before it.
fn at_place(s: Scan) -> Scan
    requires { met s ≤ 254 }
    ensures { result ≡ at_place s }
{
    let mut t = s;
    t.place = true;
    t.held = 0;
    if s.point {
        t.misplaced += s.held;
        return t;
    }
    t.grouping += s.held;
    t
}

// The commas with one token more.
fn scan_token(s: Scan, form: u16) -> Scan
    requires { met s ≤ 254 }
    ensures { result ≡ scan_form s form }
{
    match form {
        COMMA => at_comma(s),
        POINT => at_point(s),
        ZERO_PLACE..=SPACE_PLACE => at_place(s),
        _ => s,
    }
}

// The commas of a body: at its end those held divide.
fn scan_body(body: &[Mark]) -> Commas
    requires { length body.now ≤ 254 }
    ensures { (code : List ℕ) → result ≡ commas_of (tokens_in code body.now) }
{
    let mut s = Scan {
        point: false,
        place: false,
        held: 0,
        misplaced: 0,
        grouping: 0,
        dividing: 0,
    };
    for mark in body {
        s = scan_token(s, mark.form);
    }
    Commas {
        misplaced: 0 < s.misplaced,
        grouped: 0 < s.grouping,
        thousands: s.dividing + s.held,
    }
}

// The commas of a body whose facts these are: without one nothing is looked at.
pub fn commas_of(body: &[Mark], facts: Facts) -> Commas
    requires { (length body.now ≤ 254) × ((code : List ℕ) → facts.commas ≡ any is_comma (tokens_in code body.now)) }
    ensures { (code : List ℕ) → result ≡ commas_of (tokens_in code body.now) }
{
    if facts.commas {
        return scan_body(body);
    }
    Commas {
        misplaced: false,
        grouped: false,
        thousands: 0,
    }
}
