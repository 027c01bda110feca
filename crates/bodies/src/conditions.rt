// The condition that the units inside a bracket write.
ghost use Rattle.std.specs.Prelude.{◌≡◌, true, false, ℕ, suc, ◌+◌, ◌-◌, ◌^◌, ◌≤◌, ◌<◌, eqb, length, take, drop, get_or};
ghost use Rattle.lists.specs.Lists.{every, is_some};
ghost use Rattle.formats.specs.Tokens.{leading, is_digit, condition_inside};
ghost use Rattle.bodies.specs.Conditions.{operator_by, operator_width, padded_number, decimal_units, written_inside, written_of, AmountOf, ComparedBy};

use lexing::scan::digits;
use marks::Mark;

const MINUS: u16 = 45;

const ZERO: u16 = 48;

const LESS: u16 = 60;

const EQUAL: u16 = 61;

const GREATER: u16 = 62;

// A number in whole units and millionths, with its sign, which is false at zero.
#[derive(Clone, Copy)]
pub struct Amount {
    pub negative: bool,
    pub whole: u32,
    pub millionths: u32,
}

// A condition as a table has it: its comparison by number, and what it compares with, none where the digits pass the limits.
#[derive(Clone, Copy)]
pub struct Compared {
    pub operator: u16,
    pub amount: Option<Amount>,
}

// The number of the comparison that the units u and v start, in the order `= < > <= >= <>`.
fn operator_by(u: u16, v: u16) -> u16
    ensures { result ≡ operator_by u v }
{
    match (u, v) {
        (LESS, EQUAL) => 4,
        (GREATER, EQUAL) => 5,
        (LESS, GREATER) => 6,
        (EQUAL, _) => 1,
        (LESS, _) => 2,
        (GREATER, _) => 3,
        _ => 0,
    }
}

// The digits as a number of so many places, with zeros where they end.
fn number(us: &[u16], places: usize) -> u32
    requires { (places ≤ 9) × (every is_digit us.now ≡ true) }
    ensures { (result ≡ padded_number places us.now) × (result < 10 ^ places) }
{
    let mut v: u32 = 0;
    for i in 0..places {
        let digit = us.get(i).copied().unwrap_or(ZERO) - ZERO;
        v = 10 * v + u32::from(digit);
    }
    v
}

// What the digits of a condition compare with.
fn amount_of(negative: bool, us: &[u16]) -> Option<Amount>
    requires { (length us.now ≤ 254) × (every is_digit (decimal_units us.now) ≡ true) }
    ensures { (operator : ℕ) → AmountOf (written_of operator negative us.now) result }
{
    let n = digits(us);
    let behind = us.len().min(n + 1);
    let decimals = &us[behind..];
    if 9 < n {
        return None;
    }
    if 6 < decimals.len() {
        return None;
    }
    let whole = number(&us[..n], n);
    let millionths = number(decimals, 6);
    Some(Amount {
        negative: negative & (0 < whole + millionths),
        whole,
        millionths,
    })
}

// How many units a comparison takes.
fn operator_width(operator: u16) -> usize
    ensures { result ≡ operator_width operator }
{
    if operator <= 3 { 1 } else { 2 }
}

// The unit at a place, 0 where the units end.
fn unit_at(us: &[u16], i: usize) -> u16
    ensures { result ≡ get_or us.now i 0 }
{
    us.get(i).copied().unwrap_or(0)
}

// The condition that the units inside a bracket write.
fn written(us: &[u16]) -> Compared
    requires { (length us.now ≤ 254) × (is_some (condition_inside us.now) ≡ true) }
    ensures { ComparedBy (written_inside us.now) result }
{
    let operator = operator_by(unit_at(us, 0), unit_at(us, 1));
    let width = operator_width(operator);
    let negative = unit_at(us, width) == MINUS;
    let from = width + usize::from(negative);
    Compared {
        operator,
        amount: amount_of(negative, &us[from..]),
    }
}

// The condition that a token of the code stands for.
pub fn condition_of(code: &[u16], mark: Mark) -> Compared
    requires { (length code.now ≤ 254) × (is_some (condition_inside (take mark.argument (drop (suc mark.start) code.now))) ≡ true) }
    ensures { ComparedBy (written_inside (take mark.argument (drop (suc mark.start) code.now))) result }
{
    let from = usize::from(mark.start) + 1;
    let inside = &code[from..];
    let size = inside.len().min(usize::from(mark.argument));
    written(&inside[..size])
}
