// The forms of a token without brackets, each read from the units behind its first one.
#![tactic(auto, unfolding(crate::specs::Marks::step_behind, crate::specs::Marks::letter_at, calendar::specs::Names::units, formats::specs::Tokens::starts_with, formats::specs::Tokens::marked, formats::specs::Tokens::general_word, formats::specs::Tokens::half_day_word, formats::specs::Tokens::exponent_word, formats::specs::Tokens::run_allowed, marks::specs::Marks::mark_token, marks::specs::Marks::mark_rows))]

ghost use Rattle.std.specs.Prelude.{◌≡◌, List, [], ◌∷◌, ℕ, ◌≤◌, length};
ghost use Rattle.formats.specs.Tokens.{literal, quoted, marked, general_word, half_day_word, exponent_word, run_allowed, run_step, read, over_step, place_step};
ghost use Rattle.marks.specs.Marks.{mark_token};
ghost use Rattle.lexing.specs.Marks.{step_behind, letter_at, place_at};

use super::Step;
use super::scan::{digits, number_of, position_of, run_of, starts_with, starts_with_any};
use marks::forms::{
    DAYS, EXPONENT_MINUS, EXPONENT_PLUS, GENERAL, HOURS, LITERAL, LONG_HALF, MONTHS, SHORT_HALF,
    YEARS, ZERO_OVER, ZERO_OVER_FIXED, ZERO_PLACE,
};

const QUOTE: u16 = b'"' as u16;

const SOLIDUS: u16 = b'/' as u16;

// From the form of a place to those of the same place over another one and over a fixed number.
const TO_OVER: u16 = ZERO_OVER - ZERO_PLACE;

const TO_OVER_FIXED: u16 = ZERO_OVER_FIXED - ZERO_PLACE;

// Nothing more belongs to the token.
pub fn single_unit(form: u16, argument: u16) -> Option<Step>
    ensures { (us : List ℕ) → step_behind us result ≡ read (mark_token form argument us) 0 }
{
    Some(Step {
        form,
        argument,
        more: 0,
    })
}

// Behind a quote: units up to the next one, and one at least.
pub fn quoted_literal(us: &[u16]) -> Option<Step>
    requires { length us.now ≤ 254 }
    ensures { step_behind us.now result ≡ quoted us.now }
{
    let n = position_of(us, QUOTE)?;
    if n == 0 {
        return None;
    }
    Some(Step {
        form: LITERAL,
        argument: n as u16,
        more: n + 1,
    })
}

// Behind a backslash: any unit, as a literal of one.
pub fn escaped_literal(us: &[u16]) -> Option<Step>
    ensures { step_behind us.now result ≡ marked (λ (v : ℕ). literal (v ∷ [])) us.now }
{
    if us.is_empty() {
        return None;
    }
    Some(Step {
        form: LITERAL,
        argument: 1,
        more: 1,
    })
}

// Behind an underscore or an asterisk: any unit, which is the argument.
pub fn marked_unit(us: &[u16], form: u16) -> Option<Step>
    ensures { step_behind us.now result ≡ marked (λ (v : ℕ). mark_token form v us.now) us.now }
{
    let v = us.first()?;
    Some(Step {
        form,
        argument: *v,
        more: 1,
    })
}

// Behind a G: the rest of `General`.
pub fn general_word(us: &[u16]) -> Option<Step>
    ensures { step_behind us.now result ≡ general_word (71 ∷ us.now) }
{
    if starts_with(us, b"eneral") {
        return Some(Step {
            form: GENERAL,
            argument: 0,
            more: 6,
        });
    }
    None
}

// Behind an A: the rest of `AM/PM` or `A/P`.
pub fn half_day_word(us: &[u16]) -> Option<Step>
    ensures { step_behind us.now result ≡ half_day_word (65 ∷ us.now) }
{
    if starts_with(us, b"M/PM") {
        return Some(Step {
            form: LONG_HALF,
            argument: 0,
            more: 4,
        });
    }
    if starts_with(us, b"/P") {
        return Some(Step {
            form: SHORT_HALF,
            argument: 0,
            more: 2,
        });
    }
    None
}

// Behind an E: a plus or a minus.
pub fn exponent_word(us: &[u16]) -> Option<Step>
    ensures { step_behind us.now result ≡ exponent_word (69 ∷ us.now) }
{
    if starts_with(us, b"+") {
        return Some(Step {
            form: EXPONENT_PLUS,
            argument: 0,
            more: 1,
        });
    }
    if starts_with(us, b"-") {
        return Some(Step {
            form: EXPONENT_MINUS,
            argument: 0,
            more: 1,
        });
    }
    None
}

// How long a run of each letter may be.
fn run_allowed(form: u16, n: usize) -> bool
    requires { (15 ≤ form) × (1 ≤ n) }
    ensures { result ≡ run_allowed (letter_at form) n }
{
    match form {
        YEARS => (n == 2) | (n == 4),
        MONTHS => n <= 5,
        DAYS => n <= 4,
        HOURS => n <= 2,
        _ => n <= 2,
    }
}

// Behind a letter u: as many u as follow.
pub fn letter_run(us: &[u16], form: u16, u: u16) -> Option<Step>
    requires { (length us.now ≤ 254) × (15 ≤ form) × (form ≤ 19) }
    ensures { step_behind us.now result ≡ run_step (letter_at form) u us.now }
{
    let more = run_of(us, u);
    let letters = more + 1;
    if run_allowed(form, letters) {
        return Some(Step {
            form,
            argument: letters as u16,
            more,
        });
    }
    None
}

// Behind a place and a solidus: another place, a fixed number, or what makes a literal of the solidus.
fn over_token(us: &[u16], form: u16) -> Option<Step>
    requires { (length us.now ≤ 254) × (4 ≤ form) × (form ≤ 6) }
    ensures { (vs : List ℕ) → step_behind vs result ≡ over_step (place_at form) us.now }
{
    if starts_with_any(us, &[b"0", b"#", b"?"]) {
        return Some(Step {
            form: form + TO_OVER,
            argument: 0,
            more: 1,
        });
    }
    let count = digits(us);
    if count == 0 {
        return single_unit(form, 0);
    }
    Some(Step {
        form: form + TO_OVER_FIXED,
        argument: number_of(&us[..count]),
        more: count + 1,
    })
}

// A place: with a solidus behind it perhaps more than a place.
pub fn place_token(us: &[u16], form: u16) -> Option<Step>
    requires { (length us.now ≤ 254) × (4 ≤ form) × (form ≤ 6) }
    ensures { step_behind us.now result ≡ place_step (place_at form) us.now }
{
    match us.split_first() {
        Some((unit, behind)) if *unit == SOLIDUS => over_token(behind, form),
        _ => single_unit(form, 0),
    }
}
