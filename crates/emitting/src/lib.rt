// Writes the words of a section's items into a lent room, token by token.
#![tactic(auto)]

ghost use Rattle.std.specs.Prelude.{◌≡◌, cond, ◌==◌, ◌&&◌, List, [], ◌∷◌, ℕ, suc, ◌+◌, ◌≤◌, ◌<◌, ◌^◌, min, length, take, drop, ltb, eqb};
ghost use Rattle.std.specs.List.{prefix_len};
ghost use Rattle.formats.specs.Kinds.{leading_zeros};
ghost use Rattle.marks.specs.declared.Mark.{Mark};
ghost use Rattle.marks.specs.Marks.{marked, tokens_in};
ghost use Rattle.writing.specs.Put.{Put};
ghost use Rattle.emitting.specs.Emit.{emitted_words, form_words, literal_words, made_words, over_words, form_seconds, form_digit, form_fills, piece_of, walk_after, walk_past, fills_left, Emitted, ToldOf};

use marks::{Mark, forms};
use tables::tags;
use writing::put_unit;

// The units of a point and a comma, which are literals of a date.
const POINT_UNIT: u16 = 46;

const COMMA_UNIT: u16 = 44;

// What the tokens that were passed leave behind: the place of the next word; whether the last one is s, ss or an elapsed s; how
// many of the next ones belong to a part of a second; the power of the next digit and 15; and how many fills follow.
#[derive(Clone, Copy)]
struct Walk {
    at: usize,
    behind: bool,
    skip: u16,
    digit: u16,
    fills: u16,
}

// Puts an item's words at `at`.
fn put_entry(room: &mut [u16], at: usize, tag: u16, argument: u16) -> usize
    requires { at < 2 ^ 62 }
    ensures { Put room.old at (tag ∷ argument ∷ []) result room.new }
{
    let a = put_unit(room, at, tag);
    put_unit(room, a, argument)
}

// Puts the words of an item, its tag and its argument, where there is one.
fn put_made(room: &mut [u16], at: usize, made: Option<(u16, u16)>) -> usize
    requires { at < 2 ^ 62 }
    ensures { Put room.old at (made_words made) result room.new }
{
    match made {
        Some((tag, argument)) => put_entry(room, at, tag, argument),
        None => at,
    }
}

// Puts the literals of units.
fn put_literals(room: &mut [u16], at: usize, units: &[u16]) -> usize
    requires { (at < 2 ^ 61) × (length units.now ≤ 254) }
    ensures { Put room.old at (literal_words units.now) result room.new }
{
    let mut o = at;
    for unit in units {
        o = put_entry(room, o, tags::LITERAL, *unit);
    }
    o
}

// The `count` units of a code from a place on, or as many as there are.
fn units_from(code: &[u16], from: usize, count: u16) -> &[u16]
    ensures { result.now ≡ take count (drop from code.now) }
{
    let rest = &code[from.min(code.len())..];
    &rest[..rest.len().min(usize::from(count))]
}

// The item of a token that is no quoted literal, no part of a second and no place with a solidus. Of a date a point and a comma are literals, elsewhere a
// comma makes no item; every run of m is put as a month, and settled where all items stand.
fn item_of(form: u16, argument: u16, date: bool, digit: u16) -> Option<(u16, u16)>
    requires { digit < 2 ^ 15 }
    ensures { made_words result ≡ form_words date digit argument form }
{
    match form {
        forms::BARE => Some((tags::LITERAL, argument)),
        forms::BLANK => Some((tags::BLANK, argument)),
        forms::FILL => Some((tags::FILL, argument)),
        forms::ZERO_PLACE => Some((tags::ZERO_PLACE, digit + 1)),
        forms::HASH_PLACE => Some((tags::HASH_PLACE, digit + 1)),
        forms::SPACE_PLACE => Some((tags::SPACE_PLACE, digit + 1)),
        forms::POINT if date => Some((tags::LITERAL, POINT_UNIT)),
        forms::POINT => Some((tags::POINT, 0)),
        forms::COMMA if date => Some((tags::LITERAL, COMMA_UNIT)),
        forms::PERCENT => Some((tags::PERCENT, 0)),
        forms::AT => Some((tags::AT, 0)),
        forms::GENERAL => Some((tags::GENERAL, 0)),
        forms::SHORT_HALF => Some((tags::HALF_DAY, 1)),
        forms::LONG_HALF => Some((tags::HALF_DAY, 2)),
        forms::YEARS => Some((tags::YEAR, argument)),
        forms::MONTHS => Some((tags::MONTH, argument)),
        forms::DAYS => Some((tags::DAY, argument)),
        forms::HOURS => Some((tags::HOUR, argument)),
        forms::SECONDS => Some((tags::SECOND, argument)),
        forms::ELAPSED_HOURS => Some((tags::ELAPSED_HOURS, argument)),
        forms::ELAPSED_MINUTES => Some((tags::ELAPSED_MINUTES, argument)),
        forms::ELAPSED_SECONDS => Some((tags::ELAPSED_SECONDS, argument)),
        forms::EXPONENT_PLUS => Some((tags::EXPONENT_PLUS, 0)),
        forms::EXPONENT_MINUS => Some((tags::EXPONENT_MINUS, 0)),
        _ => None,
    }
}

// Puts the words of a place, told by its tag, and of the solidus directly behind it.
fn put_place_over(room: &mut [u16], at: usize, tag: u16, digit: u16) -> usize
    requires { (at < 2 ^ 61) × (digit < 2 ^ 15) }
    ensures { Put room.old at (tag ∷ suc digit ∷ 24 ∷ 0 ∷ []) result room.new }
{
    let a = put_entry(room, at, tag, digit + 1);
    put_entry(room, a, tags::SOLIDUS, 0)
}

// Puts the words of a place with a solidus directly behind it, and of the fixed number behind that, where there is one.
fn put_over(room: &mut [u16], at: usize, form: u16, argument: u16, digit: u16) -> usize
    requires { (at < 2 ^ 60) × (digit < 2 ^ 15) × (27 ≤ form) }
    ensures { Put room.old at (over_words digit argument form) result room.new }
{
    if form <= forms::SPACE_OVER {
        return put_place_over(room, at, form - forms::ZERO_OVER + tags::ZERO_PLACE, digit);
    }
    if forms::SPACE_OVER_FIXED < form {
        return at;
    }
    let a = put_place_over(
        room,
        at,
        form - forms::ZERO_OVER_FIXED + tags::ZERO_PLACE,
        digit,
    );
    put_entry(room, a, tags::FIXED, argument)
}

// Whether a token is s, ss or an elapsed s.
#[tactic(auto, unfolding(crate::specs::Emit::form_seconds))]
fn seconds_at(form: u16) -> bool
    ensures { result ≡ form_seconds form }
{
    (form == forms::SECONDS) | (form == forms::ELAPSED_SECONDS)
}

// The power of the next digit behind a token, and 15: behind an E or solidus the digits begin anew. Behind the fifteenth decimal place it stays at
// 0, as the table's definition has it; such a section is refused elsewhere. (A `match` with an arm for each form, which is one jump for all.)
#[tactic(auto, unfolding(crate::specs::Emit::form_digit))]
fn digit_after(form: u16, digit: u16, anew: u16) -> u16
    ensures { result ≡ form_digit anew form digit }
{
    match form {
        forms::ZERO_PLACE => digit.saturating_sub(1),
        forms::HASH_PLACE => digit.saturating_sub(1),
        forms::SPACE_PLACE => digit.saturating_sub(1),
        forms::EXPONENT_PLUS => anew,
        forms::EXPONENT_MINUS => anew,
        forms::ZERO_OVER => anew,
        forms::HASH_OVER => anew,
        forms::SPACE_OVER => anew,
        forms::ZERO_OVER_FIXED => anew,
        forms::HASH_OVER_FIXED => anew,
        forms::SPACE_OVER_FIXED => anew,
        _ => digit,
    }
}

// How many fills follow behind a token.
#[tactic(auto, unfolding(crate::specs::Emit::form_fills))]
fn fills_after(form: u16, fills: u16) -> u16
    ensures { result ≡ form_fills form fills }
{
    if form == forms::FILL {
        return fills.saturating_sub(1);
    }
    fills
}

// A token is a fill, and another one follows: only the last one of a section is kept.
fn fill_goes(form: u16, fills: u16) -> bool
    ensures { result ≡ (eqb form 3 && ltb 1 fills) }
{
    (form == forms::FILL) & (1 < fills)
}

// How many zeros follow, up to three.
fn zeros_in(rest: &[Mark]) -> usize
    ensures { result ≡ prefix_len (λ m. m.form == 4) (take 3 rest.now) }
{
    rest.iter()
        .take(3)
        .take_while(|mark| mark.form == forms::ZERO_PLACE)
        .count()
}

// The zeros of the part of a second that a token starts, 0 where it starts none: a point of a date behind s, ss or an elapsed s, and the
// tokens that follow it.
fn part_zeros(form: u16, rest: &[Mark], date: bool, behind: bool) -> u16
    ensures { (code : List ℕ) → result ≡ cond (date && behind && eqb form 7) (min 3 (leading_zeros (tokens_in code rest.now))) 0 }
{
    if date & behind & (form == forms::POINT) {
        return zeros_in(rest) as u16;
    }
    0
}

// Puts the words of a token; where n is not 0, those of the part of a second with n zeros that it starts.
fn put_form(room: &mut [u16], w: Walk, code: &[u16], mark: Mark, date: bool, n: u16) -> usize
    requires { (w.at < 2 ^ 60) × (w.digit < 2 ^ 15) × (length code.now ≤ 254) }
    ensures put { Put room.old w.at (piece_of date w.digit w.fills n (marked code.now mark)) result room.new }
    ensures near { result ≤ w.at + 510 }
{
    let form = mark.form;
    let argument = mark.argument;
    if 0 < n {
        return put_entry(room, w.at, tags::PART, n);
    }
    if form == forms::LITERAL {
        return put_literals(
            room,
            w.at,
            units_from(code, usize::from(mark.start) + 1, argument),
        );
    }
    if fill_goes(form, w.fills) {
        return w.at;
    }
    if forms::ZERO_OVER <= form {
        return put_over(room, w.at, form, argument, w.digit);
    }
    put_made(room, w.at, item_of(form, argument, date, w.digit))
}

// The walk behind a token whose words end at the place `at`, where the next n tokens belong to its part of a second, and `anew` is the digit
// behind an E or solidus.
fn walked(w: Walk, form: u16, n: u16, at: usize, anew: u16) -> Walk
    ensures { result ≡ walk_after anew w form n at }
{
    Walk {
        at,
        behind: seconds_at(form),
        skip: n,
        digit: digit_after(form, w.digit, anew),
        fills: fills_after(form, w.fills),
    }
}

// The walk behind a token that belongs to a part of a second.
fn passed(w: Walk) -> Walk
    requires { 0 < w.skip }
    ensures { result ≡ walk_past w }
{
    Walk {
        at: w.at,
        behind: false,
        skip: w.skip - 1,
        digit: w.digit,
        fills: w.fills,
    }
}

// What a body's tokens say before the words of its items are put: whether it is a date's, how many fills it has, how many integer places,
// and how many exponent or denominator places.
#[derive(Clone, Copy)]
pub struct Told {
    pub date: bool,
    pub fills: u16,
    pub integers: u16,
    pub exponents: u16,
}

// Goes over a token before the others, and puts its words.
fn put_token(
    room: &mut [u16],
    w: Walk,
    code: &[u16],
    mark: Mark,
    rest: &[Mark],
    date: bool,
    anew: u16,
) -> Walk
    requires at_bound { (w.at < 2 ^ 60) × (w.digit ≤ 268) × (length code.now ≤ 254) × (anew ≤ 268) }
    requires fills_value { w.fills ≡ fills_left date w (marked code.now mark ∷ tokens_in code.now rest.now) }
    ensures { Emitted date anew (marked code.now mark) (tokens_in code.now rest.now) room.old w result room.new }
{
    if 0 < w.skip {
        return passed(w);
    }
    let n = part_zeros(mark.form, rest, date, w.behind);
    let at = put_form(room, w, code, mark, date, n);
    walked(w, mark.form, n, at, anew)
}

// Puts the words of the items of a section's body at `at`, every m as a month, of a body of which this is told. Words past the room's end are
// counted, not put.
pub fn put_items(code: &[u16], body: &[Mark], told: Told, room: &mut [u16], at: usize) -> usize
    requires at_bound { (at < 2 ^ 59) × (length code.now ≤ 254) × (length body.now ≤ 254) }
    requires told { ToldOf (tokens_in code.now body.now) told }
    ensures { Put room.old at (emitted_words (tokens_in code.now body.now)) result room.new }
{
    let anew = 14 + told.exponents;
    let mut w = Walk {
        at,
        behind: false,
        skip: 0,
        digit: 14 + told.integers,
        fills: told.fills,
    };
    let mut rest = body;
    while let Some((mark, behind)) = rest.split_first() {
        w = put_token(room, w, code, *mark, behind, told.date, anew);
        rest = behind;
    }
    w.at
}
