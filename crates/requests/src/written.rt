// A value as its line writes it. A number too large is read as one that is out of range too.
ghost use Rattle.std.specs.Prelude.{◌≡◌, ◌^◌, ◌≤◌, T, length};
ghost use Rattle.lists.specs.Lists.{every};
ghost use Rattle.formats.specs.Tokens.{is_digit};
ghost use Rattle.requests.specs.Written.{numeral_up_to, signed_by, sort_of, unsigned_of, number_of, instant_of, value_of};

use super::digits::{is_digits, number_behind};
use lexing::scan::{is_word, position_of, starts_with};
use values::{Day, Millisecond, Number, Value};

// The kinds of a value that a line may name.
#[derive(Clone, Copy)]
pub enum Sort {
    Number,
    Instant,
    Text,
}

const POINT: u16 = b'.' as u16;

const SOLIDUS: u16 = b'/' as u16;

// The least coefficient that is too large: any larger one is read as it.
const LARGE: u64 = 1000000000000000;

// Too large for a day number and for a millisecond: any larger one is read as it.
const LATE: u64 = 1000000000;

// The kind that the units name, if it is one.
pub fn sort_of(us: &[u16]) -> Option<Sort>
    ensures { result ≡ sort_of us.now }
{
    if is_word(us, b"number") {
        return Some(Sort::Number);
    }
    if is_word(us, b"instant") {
        return Some(Sort::Instant);
    }
    if is_word(us, b"text") {
        return Some(Sort::Text);
    }
    None
}

// The coefficient of a sign and a magnitude.
fn signed(negative: bool, n: u64) -> i64
    requires { n ≤ 10 ^ 15 }
    ensures { result ≡ signed_by negative n }
{
    let c = n as i64;
    if negative { -c } else { c }
}

// A number behind its sign: digits, and perhaps a point and digits.
fn unsigned(negative: bool, us: &[u16]) -> Option<Value>
    requires { length us.now ≤ 2048 }
    ensures { result ≡ unsigned_of negative us.now }
{
    let n = position_of(us, POINT).unwrap_or(us.len());
    let digits = &us[..n];
    if !is_digits(digits) {
        return None;
    }
    let whole = number_behind(0, digits, LARGE);
    if n == us.len() {
        return Some(Value::Number(Number {
            coefficient: signed(negative, whole),
            scale: 0,
        }));
    }
    let from = n + 1;
    let decimals = &us[from..];
    if !is_digits(decimals) {
        return None;
    }
    let coefficient = signed(negative, number_behind(whole, decimals, LARGE));
    Some(Value::Number(Number {
        coefficient,
        scale: decimals.len() as u32,
    }))
}

// A number: perhaps a minus, and a number without one.
fn number(us: &[u16]) -> Option<Value>
    requires { length us.now ≤ 2048 }
    ensures { result ≡ number_of us.now }
{
    if starts_with(us, b"-") {
        return unsigned(true, &us[1..]);
    }
    unsigned(false, us)
}

// A day number or a millisecond.
fn count(us: &[u16]) -> u32
    requires { T (every is_digit us.now) }
    ensures { result ≡ numeral_up_to (10 ^ 9) us.now }
{
    number_behind(0, us, LATE) as u32
}

// An instant: a day number, a solidus, a millisecond.
fn instant(us: &[u16]) -> Option<Value>
    ensures { result ≡ instant_of us.now }
{
    let n = position_of(us, SOLIDUS)?;
    let from = n + 1;
    let before = &us[..n];
    let behind = &us[from..];
    if is_digits(before) & is_digits(behind) {
        let day = Day(count(before));
        let millisecond = Millisecond(count(behind));
        return Some(Value::Instant(day, millisecond));
    }
    None
}

// The value that a line of this kind writes, if it is well formed.
pub fn value_of(sort: Sort, us: &[u16]) -> Option<Value>
    requires { length us.now ≤ 2048 }
    ensures { result ≡ value_of sort us.now }
{
    match sort {
        Sort::Number => number(us),
        Sort::Instant => instant(us),
        Sort::Text => Some(Value::Text),
    }
}
