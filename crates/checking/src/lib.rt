// Whether words are a table: every table rule, those for items by a walk for each sort of section.
#![tactic(auto)]

ghost use Rattle.std.specs.Prelude.{◌≡◌, MatchOption, false, ◌&&◌, ◌+◌, ◌*◌, ◌≤◌, ◌<◌, eqb, length, get_or, drop};
ghost use Rattle.formats.specs.Minus.{exception_a};
ghost use Rattle.lists.specs.Lists.{every};
ghost use Rattle.tables.specs.Words.{head_at, entries_in, heads_in, rows_in, items_said};
ghost use Rattle.tables.specs.Standing.{counted_one, counted_kinds};
ghost use Rattle.tables.specs.Decode.{thousands_at};
ghost use Rattle.tables.specs.Rules.{shift_tells, passes};
ghost use Rattle.table_words.specs.Sections.{head_from};
ghost use Rattle.fraction_rows.specs.FractionRows.{fraction_items};
ghost use Rattle.checking.specs.Checking.{sized, Sized, compared_told, condition_told, number_told, scientific_told, other_told, cut_told, row_with, row_good, compared_stands, plain_fits, place_fits, kinds_in, places_fit};

use bare_rows::bare_fits;
use date_rows::dated_row;
use fraction_rows::fraction_row;
use number_rows::{NumberRow, number_row};
use scientific_rows::{ScientificRow, scientific_row};
use table_words::{HeadWords, Table, head_at, number, section_count};
use tables::{flags, heads, kinds};

// No number without a comparison, no sign without a number.
fn compared_fits(operator: u16, negative: u16, whole: u32, millionths: u32) -> bool
    ensures { result ≡ compared_told operator negative whole millionths }
{
    let nothing = (whole == 0) & (millionths == 0);
    (operator <= 6)
        & (negative <= 1)
        & (whole <= 999999999)
        & (millionths <= 999999)
        & ((operator != 0) | ((negative == 0) & (whole == 0) & (millionths == 0)))
        & (!nothing | (negative == 0))
}

// Most sections have no condition: then the numbers are not made.
fn condition_fits(h: HeadWords) -> bool
    ensures { result ≡ condition_told (head_from h) }
{
    if h.operator == 0 {
        return h.negative as u32
            + h.whole_low as u32
            + h.whole_high as u32
            + h.millionths_low as u32
            + h.millionths_high as u32
            == 0;
    }
    compared_fits(
        h.operator,
        h.negative,
        number(h.whole_low, h.whole_high),
        number(h.millionths_low, h.millionths_high),
    )
}

// The dividing commas that a shift tells beside the percents.
fn thousands_at(shift: u16, percents: u16) -> u16
    ensures { result ≡ thousands_at shift percents }
{
    let most = 15 + 2 * percents as u32;
    let given = shift as u32;
    if given <= most {
        return ((most - given) / 3) as u16;
    }
    0
}

// Most number sections have neither percents nor dividing commas.
fn shift_tells(shift: u16, percents: u16) -> bool
    ensures { result ≡ shift_tells shift percents }
{
    if (shift == 15) & (percents == 0) {
        return true;
    }
    let t = thousands_at(shift, percents);
    (t <= 5) & (shift as u32 + 3 * t as u32 == 15 + 2 * percents as u32)
}

// The words of a number section's head that its items tell: grouping needs two integer places.
fn number_fits(h: HeadWords, items: NumberRow) -> bool
    ensures { result ≡ number_told (head_from h) items.integers items.decimals items.percents }
{
    if !shift_tells(h.shift, items.percents) {
        return false;
    }
    (h.decimals == items.decimals)
        & (h.flags < flags::TWELVE_HOUR)
        & ((h.flags % 2 != flags::GROUPING) | (2 <= items.integers))
}

// Those of a scientific section's: nothing is shifted, and no digits are grouped.
fn scientific_fits(h: HeadWords, items: ScientificRow) -> bool
    ensures { result ≡ scientific_told (head_from h) items.decimals }
{
    (h.shift == 0)
        & (h.decimals == items.decimals)
        & ((h.flags == 0) | (h.flags == flags::NO_MINUS))
}

// Those of another section's head: nothing is shifted, and no digits are grouped.
fn other_fits(h: HeadWords, half: bool) -> bool
    ensures { result ≡ other_told (head_from h) half }
{
    (h.shift == 0)
        & (h.decimals == 0)
        & (h.flags <= flags::ALL)
        & (h.flags % 2 != flags::GROUPING)
        & ((flags::TWELVE_HOUR <= h.flags) == half)
}

// The items of a fraction, where that is the kind.
fn is_fraction(items: &[u16], kind: u16) -> bool
    ensures { result ≡ (eqb kind 6 && fraction_items (entries_in items.now)) }
{
    kind == kinds::FRACTION && fraction_row(items)
}

// What is left to test of section i, which is scientific, a fraction or of no kind.
fn cut_fits(table: &[u16], i: usize, items: &[u16]) -> bool
    requires { (i ≤ 3) × (13 + 12 * i ≤ length table.now) }
    ensures { result ≡ cut_told (head_at (drop (1 + 12 * i) table.now)) (entries_in items.now) }
{
    let h = head_at(table, i);
    if h.kind == kinds::SCIENTIFIC {
        let Some(row) = scientific_row(items) else {
            return false;
        };
        return scientific_fits(h, row);
    }
    if !is_fraction(items, h.kind) {
        return false;
    }
    other_fits(h, false)
}

// The rules for section i that do not speak of where it stands. A word that another word or the items tell is in its range
// where they are. The head is read again behind the items: what is kept over them costs more than a second reading.
fn row_fits(table: &[u16], i: usize, items: &[u16]) -> bool
    requires { (i ≤ 3) × (13 + 12 * i ≤ length table.now) × ((head_at (drop (1 + 12 * i) table.now)).items ≤ 254) }
    ensures { result ≡ row_good (row_with (head_at (drop (1 + 12 * i) table.now)) (entries_in items.now)) }
{
    let h = head_at(table, i);
    if 56 < h.colour {
        return false;
    }
    if !condition_fits(h) {
        return false;
    }
    if h.kind == kinds::NUMBER {
        let Some(row) = number_row(items) else {
            return false;
        };
        return number_fits(head_at(table, i), row);
    }
    if h.kind == kinds::DATE_TIME {
        let Some(row) = dated_row(items) else {
            return false;
        };
        return other_fits(head_at(table, i), row.halves);
    }
    if kinds::SCIENTIFIC <= h.kind {
        return cut_fits(table, i, items);
    }
    if !bare_fits(items, h.kind) {
        return false;
    }
    other_fits(head_at(table, i), false)
}

// The items of all heads.
fn items_said(table: &[u16], n: usize) -> usize
    requires { (n ≡ get_or table.now 0 0) × (n ≤ 4) × (1 + 12 * n ≤ length table.now) }
    ensures { (result ≡ items_said (heads_in table.now)) × (result ≤ 262140) }
{
    let mut sum: usize = 0;
    for i in 0..n {
        let h = head_at(table, i);
        sum += h.items as usize;
    }
    sum
}

// 1 to 4 sections, exactly their words, at most 254 items.
fn is_sized(table: &[u16]) -> bool
    ensures { result ≡ sized table.now }
{
    let length = table.len();
    if length == 0 {
        return false;
    }
    let n = section_count(table);
    if !(1..=4).contains(&n) {
        return false;
    }
    if length < 1 + heads::WORDS * n {
        return false;
    }
    let items = items_said(table, n);
    (length == 1 + heads::WORDS * n + 2 * items) & (items <= 254)
}

// The rules for each section that do not speak of where it stands.
fn rows_fit(table: &[u16]) -> bool
    requires { Sized table.now }
    ensures { result ≡ every row_good (rows_in table.now) }
{
    let n = section_count(table);
    let mut at = 1 + heads::WORDS * n;
    for i in 0..n {
        let h = head_at(table, i);
        let end = at + 2 * h.items as usize;
        if !row_fits(table, i, &table[at..end]) {
            return false;
        }
        at = end;
    }
    true
}

#[tactic(auto, using(std::proofs::lemmas::Bool::Decides::nat_tests), unfolding(tables::specs::Standing::counted_one))]
fn counted_one(i: usize, kind: u16) -> u16
    ensures { result ≡ counted_one i kind }
{
    u16::from((kind != kinds::TEXT) & (i != 3))
}

// N, by the kind words.
fn counted(table: &[u16], n: usize) -> u16
    requires { Sized table.now × (n ≡ get_or table.now 0 0) }
    ensures { result ≡ counted_kinds 0 (kinds_in (heads_in table.now)) }
{
    let mut count: u16 = 0;
    for i in 0..n {
        let h = head_at(table, i);
        count += counted_one(i, h.kind);
    }
    count
}

// Where a section with a condition may stand: first or second; not of text; alone only as General.
fn compared_stands(n: usize, i: usize, kind: u16) -> bool
    ensures { result ≡ compared_stands n i kind }
{
    (kind != kinds::TEXT) & (((n != 1) | (kind == kinds::GENERAL)) & (i < 2))
}

// Exception (a) of the added minus, of the second section, which has no condition.
fn excepted(counted: u16, first_has: bool) -> bool
    ensures { result ≡ exception_a counted 1 false first_has }
{
    (counted == 3) | ((counted == 2) & !first_has)
}

// Where a section without a condition may stand, with or without the flag of exception (a).
fn plain_fits(
    n: usize,
    counted: u16,
    first_has: bool,
    i: usize,
    kind: u16,
    colour: u16,
    flag: bool,
) -> bool
    requires { i ≤ 3 }
    ensures { result ≡ plain_fits n counted first_has i kind colour flag }
{
    if (kind == kinds::TEXT) & (i + 1 != n) {
        return false;
    }
    if i == 1 {
        return flag == excepted(counted, first_has);
    }
    if i == 3 {
        return !flag
            & (colour == 0)
            & ((kind == kinds::TEXT) | (kind == kinds::GENERAL) | (kind == kinds::LITERAL));
    }
    !flag
}

fn place_fits(n: usize, counted: u16, first_has: bool, i: usize, h: HeadWords) -> bool
    requires { i ≤ 3 }
    ensures { result ≡ place_fits n counted first_has i (head_from h) }
{
    let flag = h.flags / flags::NO_MINUS % 2 == 1;
    if h.operator == 0 {
        return plain_fits(n, counted, first_has, i, h.kind, h.colour, flag);
    }
    if flag {
        return false;
    }
    compared_stands(n, i, h.kind)
}

// Where the sections stand, and the flags of exception (a).
fn places_fit(table: &[u16]) -> bool
    requires { Sized table.now }
    ensures { result ≡ places_fit (heads_in table.now) }
{
    let n = section_count(table);
    if n == 1 {
        return place_fits(1, 1, false, 0, head_at(table, 0));
    }
    let counted = counted(table, n);
    let first = head_at(table, 0);
    let first_has = first.operator != 0;
    for i in 0..n {
        let h = head_at(table, i);
        if !place_fits(n, counted, first_has, i, h) {
            return false;
        }
    }
    true
}

// Whether the words are a table: all table rules.
pub fn check(table: &[u16]) -> bool
    ensures { result ≡ passes table.now }
{
    if !is_sized(table) {
        return false;
    }
    if !rows_fit(table) {
        return false;
    }
    places_fit(table)
}

// The words as a table, where they are one.
pub fn table_of(words: &[u16]) -> Option<Table<'_>>
    ensures { MatchOption result (passes words.now ≡ false) (λ t. t.words.now ≡ words.now) }
{
    if check(words) {
        return Some(Table { words });
    }
    None
}
