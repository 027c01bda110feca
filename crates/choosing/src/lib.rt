// The section of a table that a number, an instant or a text goes to, read off the table's words.
#![tactic(auto)]

pub mod sought;

ghost use Rattle.std.specs.Prelude.{◌≡◌, ◌^◌, ◌≤◌, true, get_or};
ghost use Rattle.choosing.specs.Comparing.{order_of, parts_order, fraction, millionths_size, signed_order, holds_for};
ghost use Rattle.table_words.specs.Sections.{section_in};
ghost use Rattle.table_words.specs.Tabled.{sections_of, section_of};
ghost use Rattle.choosing.specs.Seeking.{exact_of, found_of, text_found_of, takes};
ghost use Rattle.formats.specs.Items.{Section};
ghost use Rattle.formats.specs.Where.{has_condition};
ghost use Rattle.formats.specs.Choice.{less_than, zero_exact, counted, fallback, condition_holds, reason_holds, choose, choose_text};
ghost use Rattle.tables.specs.Decode.{comparison_at};

use figures::power;
pub use sought::Sought;
use std::cmp::Ordering;
use table_words::{Table, TableSection, number};

// By the whole parts, and by the rests where these are the same.
fn compare_parts(whole: u64, rest: u64, limit: u64, over: u64) -> Ordering
    ensures { result ≡ parts_order whole rest limit over }
{
    whole.cmp(&limit).then(rest.cmp(&over))
}

// above / 10^scale against a whole number and millionths. The rests are brought to the finer of their denominators, so that
// none passes 10^15.
fn compare_number(above: u64, scale: u32, whole: u32, millionths: u32) -> Ordering
    requires { (scale ≤ 15) × (millionths ≤ 999999) }
    ensures { result ≡ order_of (fraction above (10 ^ scale)) (millionths_size whole millionths) }
{
    let p = power(scale);
    let rest = above % p;
    if scale <= 6 {
        return compare_parts(
            above / p,
            rest * power(6 - scale),
            whole as u64,
            millionths as u64,
        );
    }
    compare_parts(
        above / p,
        rest,
        whole as u64,
        millionths as u64 * power(scale - 6),
    )
}

// above / 86,400,000 against a whole number and millionths.
fn compare_instant(above: u64, whole: u32, millionths: u32) -> Ordering
    requires { millionths ≤ 999999 }
    ensures { result ≡ order_of (fraction above 86400000) (millionths_size whole millionths) }
{
    let rest = above % 86400000 * 1000000;
    compare_parts(
        above / 86400000,
        rest,
        whole as u64,
        millionths as u64 * 86400000,
    )
}

// The magnitude of what is sought against a whole number and millionths.
fn compare(v: Sought, whole: u32, millionths: u32) -> Ordering
    requires { millionths ≤ 999999 }
    ensures { result ≡ order_of (exact_of v).size (millionths_size whole millionths) }
{
    if v.instant {
        return compare_instant(v.above, whole, millionths);
    }
    compare_number(v.above, v.scale, whole, millionths)
}

// How two numbers stand by their signs, and by how their magnitudes stand.
fn signed(negative: bool, other: bool, order: Ordering) -> Ordering
    ensures { result ≡ signed_order negative other order }
{
    match (negative, other) {
        (true, true) => order.reverse(),
        (true, false) => Ordering::Less,
        (false, true) => Ordering::Greater,
        (false, false) => order,
    }
}

// Whether the comparison of an operator word holds: 1 to 6 are `= < > <= >= <>`. (An enum would be made of the word here and matched here, by
// the same six arms.)
fn holds(operator: u16, order: Ordering) -> bool
    ensures { result ≡ holds_for (comparison_at operator) order }
{
    match operator {
        1 => order.is_eq(),
        2 => order.is_lt(),
        3 => order.is_gt(),
        4 => order.is_le(),
        5 => order.is_ge(),
        _ => order.is_ne(),
    }
}

// Whether the section's condition holds; it has one.
fn condition_holds(section: TableSection, v: Sought) -> bool
    requires { has_condition (section_of section) ≡ true }
    ensures { result ≡ condition_holds (section_of section.entry).condition (exact_of v) }
{
    let h = section.head();
    let whole = number(h.whole_low, h.whole_high);
    let millionths = number(h.millionths_low, h.millionths_high);
    let order = compare(v, whole, millionths);
    holds(h.operator, signed(v.negative, h.negative == 1, order))
}

// Whether the number is above 0.
fn is_positive(v: Sought) -> bool
    ensures { result ≡ less_than zero_exact (exact_of v) }
{
    !v.negative & (0 < v.above)
}

// Whether section i of N, which has no condition, takes the value.
fn fallback_holds(counted: u16, i: u16, v: Sought) -> bool
    ensures { (s : Section) → result ≡ reason_holds (fallback counted i) s (exact_of v) }
{
    match counted {
        1 => true,
        2 => (i != 0) | !v.negative,
        _ => match i {
            0 => is_positive(v),
            1 => v.negative,
            _ => true,
        },
    }
}

// Whether the section takes the value, where N sections count.
fn takes(section: TableSection, counted: u16, v: Sought) -> bool
    ensures { result ≡ takes counted section.entry.place (section_of section.entry) (exact_of v) }
{
    if section.has_condition() {
        return condition_holds(section, v);
    }
    fallback_holds(counted, section.place, v)
}

// N: how many sections are neither text nor fourth. A text section stands last.
pub fn counted(table: Table) -> u16
    ensures { result ≡ counted (sections_of table.entry) }
{
    let n = table.section_count();
    if 3 < n {
        return 3;
    }
    let last = n - 1;
    if table.section(last).is_text() {
        return last;
    }
    n
}

// The section among several, or of one with a condition. The first N count, and only the first two may have a condition.
fn choose_among(table: Table, v: Sought) -> Option<u16>
    requires { get_or table.words.now 0 0 ≡ 1 → has_condition (section_in table.words.now 0) ≡ true }
    ensures { result ≡ found_of (choose (sections_of table.entry) (exact_of v)) }
{
    let counted = counted(table);
    if takes(table.section(0), counted, v) {
        return Some(0);
    }
    if counted == 1 {
        return None;
    }
    if takes(table.section(1), counted, v) {
        return Some(1);
    }
    if counted == 2 {
        return None;
    }
    Some(2)
}

// The place of the section that a number or an instant goes to. A section that stands alone without a condition, as in most tables,
// takes every value.
pub fn choose(table: Table, v: Sought) -> Option<u16>
    ensures { result ≡ found_of (choose (sections_of table.entry) (exact_of v)) }
{
    if table.section(0).has_condition() {
        return choose_among(table, v);
    }
    if table.section_count() == 1 {
        return Some(0);
    }
    choose_among(table, v)
}

// The place of the section that a text goes to.
pub fn choose_text(table: Table) -> Option<u16>
    ensures { result ≡ text_found_of (choose_text (sections_of table.entry)) }
{
    let n = table.section_count();
    if n == 4 {
        return Some(3);
    }
    let last = n - 1;
    if table.section(last).is_text() {
        return Some(last);
    }
    None
}
