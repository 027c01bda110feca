// Reads a code into tokens: a mark for each, with the place of its first unit.
#![tactic(auto)]

mod brackets;
pub mod buffer;
mod forms;
pub mod scan;

ghost use Rattle.std.specs.Prelude.{◌≡◌, suc, ◌≤◌, ◌<◌, length, drop, get_or};
ghost use Rattle.formats.specs.Tokens.{step_at};
ghost use Rattle.lexing.specs.Marks.{step_behind, step_meant};
ghost use Rattle.lexing.specs.Bare.{is_bare};

use brackets::bracketed_token;
use forms::{
    escaped_literal, exponent_word, general_word, half_day_word, letter_run, marked_unit,
    place_token, quoted_literal, single_unit,
};
use marks::forms::{
    AT, BARE, BLANK, COMMA, DAYS, FILL, HASH_PLACE, HOURS, MONTHS, PERCENT, POINT, SECONDS,
    SEMICOLON, SPACE_PLACE, YEARS, ZERO_PLACE,
};

// A token by its form and argument (marks), and how many units follow its first one.
#[derive(Clone, Copy)]
struct Step {
    pub form: u16,
    pub argument: u16,
    pub more: usize,
}

// A unit without a row of its own stands for itself. (An arm for each unit: arms joined by `|` are compiled to tests in a row.)
#[tactic(auto, unfolding(crate::specs::Bare::is_bare, formats::specs::Tokens::bare_literals, lists::specs::Lists::any, calendar::specs::Names::units))]
fn is_bare(ascii: u8) -> bool
    ensures { result ≡ is_bare ascii }
{
    match ascii {
        b'$' => true,
        b'-' => true,
        b'+' => true,
        b'/' => true,
        b'(' => true,
        b')' => true,
        b':' => true,
        b'!' => true,
        b'^' => true,
        b'&' => true,
        b'\'' => true,
        b'~' => true,
        b'{' => true,
        b'}' => true,
        b'<' => true,
        b'>' => true,
        b'=' => true,
        b' ' => true,
        _ => false,
    }
}

// The token that starts at a unit of ASCII, with the units us behind it.
#[tactic(auto, unfolding(crate::specs::Marks::step_behind, crate::specs::Marks::letter_at, crate::specs::Marks::place_at, formats::specs::Tokens::step_at, formats::specs::Tokens::first_in, formats::specs::Tokens::first_rows, formats::specs::Tokens::step_by, marks::specs::Marks::mark_token, marks::specs::Marks::mark_rows))]
fn ascii_step(ascii: u8, us: &[u16]) -> Option<Step>
    requires { length us.now ≤ 254 }
    ensures { step_behind us.now result ≡ step_at ascii us.now }
{
    let u = u16::from(ascii);
    match ascii {
        b'"' => quoted_literal(us),
        b'\\' => escaped_literal(us),
        b'_' => marked_unit(us, BLANK),
        b'*' => marked_unit(us, FILL),
        b'[' => bracketed_token(us),
        b'G' => general_word(us),
        b'A' => half_day_word(us),
        b'E' => exponent_word(us),
        b'y' => letter_run(us, YEARS, u),
        b'm' => letter_run(us, MONTHS, u),
        b'd' => letter_run(us, DAYS, u),
        b'h' => letter_run(us, HOURS, u),
        b's' => letter_run(us, SECONDS, u),
        b'0' => place_token(us, ZERO_PLACE),
        b'#' => place_token(us, HASH_PLACE),
        b'?' => place_token(us, SPACE_PLACE),
        b'.' => single_unit(POINT, 0),
        b',' => single_unit(COMMA, 0),
        b'%' => single_unit(PERCENT, 0),
        b'@' => single_unit(AT, 0),
        b';' => single_unit(SEMICOLON, 0),
        _ => {
            if is_bare(ascii) {
                return single_unit(BARE, u);
            }
            None
        }
    }
}

// The token at a place of a code.
fn next(code: &[u16], at: usize) -> Option<Step>
    requires { (at < length code.now) × (length code.now ≤ 254) }
    ensures { step_meant code.now at result ≡ step_at (get_or code.now at 0) (drop (suc at) code.now) }
{
    let Ok(ascii) = u8::try_from(code[at]) else {
        return None;
    };
    let from = at + 1;
    ascii_step(ascii, &code[from..])
}
