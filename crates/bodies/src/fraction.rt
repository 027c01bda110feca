// The rules for the solidus of a fraction, in one pass over the tokens of its body.
ghost use Rattle.std.specs.Prelude.{◌≡◌, List, ℕ};
ghost use Rattle.marks.specs.Marks.{tokens_in};
ghost use Rattle.bodies.specs.Fraction.{silent_form, at_place, at_item, at_over, walk_form, FractionTold};

use marks::Mark;
use marks::forms::{
    BLANK, COLOUR, COMMA, CONDITION, EXPONENT_MINUS, SEMICOLON, SPACE_OVER_FIXED, SPACE_PLACE,
    ZERO_OVER, ZERO_OVER_FIXED, ZERO_PLACE,
};

// What the tokens passed have said. Before the solidus: the last of them is a place (`run`), integer places stand before its run (`begun`),
// and a literal behind these (`literal`). Behind the solidus (`over`): a place may follow (`run`), the denominator has begun (`begun`).
// No rule is broken so far (`fits`).
#[derive(Drop)]
struct Walk {
    over: bool,
    run: bool,
    begun: bool,
    literal: bool,
    fits: bool,
}

// With a place more: behind the solidus one of its denominator's run.
fn at_place(w: Walk) -> Walk
    ensures { result ≡ at_place w }
{
    Walk {
        over: w.over,
        run: !w.over | w.run,
        begun: w.begun | w.over,
        literal: w.literal,
        fits: w.fits & (!w.over | w.run),
    }
}

// With another item more, which ends a run of places: behind the solidus a run must stand before it.
fn at_item(w: Walk, literal: bool) -> Walk
    ensures { result ≡ at_item literal w }
{
    Walk {
        over: w.over,
        run: false,
        begun: w.begun | w.run & !w.over,
        literal: w.literal & !w.run | literal,
        fits: w.fits & (!w.over | w.begun),
    }
}

// With a place and its solidus more, the only one: a literal stands between the integer places and the numerator.
fn at_over(w: Walk, fixed: bool) -> Walk
    ensures { result ≡ at_over fixed w }
{
    Walk {
        over: true,
        run: !fixed,
        begun: fixed,
        literal: w.literal,
        fits: w.fits & !w.over & (!w.begun | w.literal),
    }
}

// With one token more.
fn walk_token(w: Walk, form: u16) -> Walk
    ensures { result ≡ walk_form w form }
{
    match form {
        ZERO_PLACE..=SPACE_PLACE => at_place(w),
        ZERO_OVER..=SPACE_OVER_FIXED => at_over(w, ZERO_OVER_FIXED <= form),
        COMMA | SEMICOLON | COLOUR | CONDITION => w,
        _ => at_item(w, !(BLANK..=EXPONENT_MINUS).contains(&form)),
    }
}

// The body of a fraction keeps the rules for its solidus.
pub fn fraction_fits(body: &[Mark]) -> bool
    ensures { (code : List ℕ) → FractionTold (tokens_in code body.now) result }
{
    let mut w = Walk {
        over: false,
        run: false,
        begun: false,
        literal: false,
        fits: true,
    };
    for mark in body {
        w = walk_token(w, mark.form);
    }
    w.fits & (!w.over | w.begun)
}
