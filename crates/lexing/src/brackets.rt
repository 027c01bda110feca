// What stands in brackets: a colour, an elapsed run or a condition.
ghost use Rattle.std.specs.Prelude.{◌≡◌, false, List, ℕ, ◌≤◌, ◌++◌, length};
ghost use Rattle.lists.specs.Lists.{is_some};
ghost use Rattle.formats.specs.Tokens.{equal, colour_names, named_from, colour_digits, numbered, whole_of, signed_of, condition_inside, first_form, inside_of, bracketed};
ghost use Rattle.lexing.specs.Marks.{step_behind, inside_meant, form_meant, plain_inside};
ghost use Rattle.lexing.specs.Brackets.{colour_meant, is_run_of, is_pointed};

use super::Step;
use super::scan::{
    are_digits, digits, is_word, number_of, position_of, starts_with, starts_with_any,
};
use marks::forms::{COLOUR, CONDITION, ELAPSED_HOURS, ELAPSED_MINUTES, ELAPSED_SECONDS};

const ZERO: u16 = b'0' as u16;

const POINT: u16 = b'.' as u16;

const CLOSING: u16 = b']' as u16;

const HOUR: u16 = b'h' as u16;

const MINUTE: u16 = b'm' as u16;

const SECOND: u16 = b's' as u16;

// The names of the colours from 1 on.
const COLOUR_NAMES: [&[u8]; 8] = [
    b"Black", b"White", b"Red", b"Green", b"Blue", b"Yellow", b"Magenta", b"Cyan",
];

const LAST_COLOUR: u16 = 56;

// What a bracket's inside stands for: a token's form and argument.
#[derive(Clone, Copy)]
struct Inside {
    pub form: u16,
    pub argument: u16,
}

// The number of the named colour.
fn named_colour(inside: &[u16]) -> Option<u16>
    ensures { colour_meant result ≡ named_from 1 colour_names inside.now }
{
    let names = COLOUR_NAMES;
    names
        .iter()
        .position(|name| is_word(inside, *name))
        .map(|k| k as u16 + 1)
}

// The number of a colour behind `Color`.
fn colour_digits(us: &[u16]) -> Option<u16>
    ensures { colour_meant result ≡ colour_digits us.now }
{
    if *us.first()? == ZERO {
        return None;
    }
    if !are_digits(us) {
        return None;
    }
    let n = number_of(us);
    if n <= LAST_COLOUR {
        return Some(n);
    }
    None
}

// The number of a colour by number.
fn numbered_colour(inside: &[u16]) -> Option<u16>
    ensures { colour_meant result ≡ numbered inside.now }
{
    if starts_with(inside, b"Color") {
        return colour_digits(&inside[5..]);
    }
    None
}

// The inside is u, once or more.
fn is_run(inside: &[u16], u: u16) -> bool
    ensures { result ≡ is_run_of u inside.now }
{
    !inside.is_empty() & inside.iter().all(|v| *v == u)
}

// A point and digits.
fn is_decimals(us: &[u16]) -> bool
    requires { 1 ≤ length us.now }
    ensures { result ≡ is_pointed us.now }
{
    let digits = &us[1..];
    (us[0] == POINT) & !digits.is_empty() & are_digits(digits)
}

// Digits, and perhaps a point and digits.
fn is_number(us: &[u16]) -> bool
    ensures { result ≡ is_some (whole_of equal false us.now) }
{
    let n = digits(us);
    if n == 0 {
        return false;
    }
    if n == us.len() {
        return true;
    }
    is_decimals(&us[n..])
}

// Perhaps a minus, then a number.
fn is_signed(us: &[u16]) -> bool
    ensures { result ≡ is_some (signed_of equal us.now) }
{
    if starts_with(us, b"-") {
        return is_number(&us[1..]);
    }
    is_number(us)
}

// A comparison, of two units where it can be, and a number.
fn is_condition(inside: &[u16]) -> bool
    ensures { result ≡ is_some (condition_inside inside.now) }
{
    if starts_with_any(inside, &[b"<=", b">=", b"<>"]) {
        return is_signed(&inside[2..]);
    }
    if starts_with_any(inside, &[b"=", b"<", b">"]) {
        return is_signed(&inside[1..]);
    }
    false
}

// The number of the colour.
fn colour(inside: &[u16]) -> Option<u16>
    ensures { colour_meant result ≡ first_form (named_from 1 colour_names inside.now) (numbered inside.now) }
{
    named_colour(inside).or_else(|| numbered_colour(inside))
}

// The form of an elapsed run or a condition.
fn plain_form(inside: &[u16]) -> Option<u16>
    ensures { (us : List ℕ) → form_meant (inside.now ++ us) (length inside.now) result ≡ plain_inside inside.now }
{
    if is_run(inside, HOUR) {
        return Some(ELAPSED_HOURS);
    }
    if is_run(inside, MINUTE) {
        return Some(ELAPSED_MINUTES);
    }
    if is_run(inside, SECOND) {
        return Some(ELAPSED_SECONDS);
    }
    if is_condition(inside) {
        return Some(CONDITION);
    }
    None
}

// What the inside stands for.
fn inside_of(inside: &[u16]) -> Option<Inside>
    requires { length inside.now ≤ 254 }
    ensures { (us : List ℕ) → inside_meant (inside.now ++ us) result ≡ inside_of inside.now }
{
    if let Some(argument) = colour(inside) {
        return Some(Inside {
            form: COLOUR,
            argument,
        });
    }
    let form = plain_form(inside)?;
    Some(Inside {
        form,
        argument: inside.len() as u16,
    })
}

// Behind an opening bracket: what stands up to the closing one.
pub fn bracketed_token(us: &[u16]) -> Option<Step>
    requires { length us.now ≤ 254 }
    ensures { step_behind us.now result ≡ bracketed us.now }
{
    let n = position_of(us, CLOSING)?;
    let inside = inside_of(&us[..n])?;
    Some(Step {
        form: inside.form,
        argument: inside.argument,
        more: n + 1,
    })
}
