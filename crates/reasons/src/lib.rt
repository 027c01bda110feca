// Why a value is shown as it is: the section, by what it was chosen, the sections tried earlier, the minus or what held it back, and how many
// decimals were cut, read off a table's words.
#![tactic(auto)]

ghost use Rattle.std.specs.Prelude.{◌≡◌, ◌≤◌, ◌<◌, ◌^◌, [], T, eqb};
ghost use Rattle.values.specs.declared.Number.{Number};
ghost use Rattle.values.specs.declared.Value.TheVariants as value;
ghost use Rattle.values.specs.Ranges.{number_in_range, value_in_range};
ghost use Rattle.figures.specs.Sign.{signed_of};
ghost use Rattle.formats.specs.Items.{number_kind, scientific_kind, fraction_kind, kind_of};
ghost use Rattle.formats.specs.Choice.{Exact, number_exact, instant_exact, Reason, chosen, choose, choose_text};
ghost use Rattle.formats.specs.Reading.{section_rounded, places_nought, shows_nought, number_sign};
ghost use Rattle.table_words.specs.Tabled.{sections_of, section_of};
ghost use Rattle.grounds.specs.Why.{tried_at, minus_of, number_cut, chosen_grounds, untried, no_grounds, number_grounds, instant_grounds, text_grounds, grounds_of};
ghost use Rattle.reasons.specs.Table.{table_why};
ghost use Rattle.reasons.specs.Told.{choice_at, minus_told, ScalingOf};

use answers::Refusal;
use cuts::{decimals_cut, general_cut, general_nought, rounds_to_nought, scientific_cut};
use figures::Signed;
use grounds::{ChosenBy, Grounds, Minus, Tried};
use planning::{InRange, instant_sought, integer_places, number_sought};
use showing::{answer_of, section_fraction};
use table_words::{Kind, Table, TableSection};
use values::{Ask, Day, Millisecond, Number, Value};

// By what section i was chosen, where N sections count: its own condition, or the fallback of its place.
#[tactic(auto, unfolding(crate::specs::Told::choice_at, grounds::specs::Why::choice_of, formats::specs::Choice::fallback))]
fn choice_of(counted: u16, i: u16, own: bool) -> ChosenBy
    ensures { result ≡ choice_at counted i own }
{
    match (counted, i) {
        (0, _) => ChosenBy::General,
        _ if own => ChosenBy::OwnCondition,
        (1, _) => ChosenBy::AllValues,
        (2, 0) => ChosenBy::FirstOfTwo,
        (2, _) => ChosenBy::RestOfTwo,
        (_, 0) => ChosenBy::AboveZero,
        (_, 1) => ChosenBy::BelowZero,
        _ => ChosenBy::RestOfThree,
    }
}

// What is said of the section at a place where this one was chosen.
fn tried_at(section: TableSection, place: u16) -> Tried
    ensures { result ≡ tried_at (sections_of section.entry.table) section.entry.place place }
{
    if section.place <= place {
        return Tried::NotTried;
    }
    let earlier = section.table.section(place);
    if earlier.has_condition() {
        return Tried::OwnFalse;
    }
    Tried::FallbackFalse
}

// The reason for a section, where it was chosen.
fn chosen_grounds(section: TableSection, minus: Minus, cut: u16) -> Grounds
    ensures { (x : Exact) (why : Reason) → choose (sections_of section.entry.table) x ≡ chosen section.entry.place (section_of section.entry) why
        → result ≡ chosen_grounds (sections_of section.entry.table) section.entry.place why minus cut }
{
    let counted = choosing::counted(section.table);
    let choice = choice_of(counted, section.place, section.has_condition());
    let first = tried_at(section, 0);
    let second = tried_at(section, 1);
    Grounds {
        section: section.place,
        choice,
        first,
        second,
        minus,
        cut,
    }
}

// The reason where no section was tried.
fn untried(section: u16, choice: ChosenBy) -> Grounds
    ensures { result ≡ untried section choice }
{
    Grounds {
        section,
        choice,
        first: Tried::NotTried,
        second: Tried::NotTried,
        minus: Minus::Text,
        cut: 0,
    }
}

// Where no section was chosen. (The show is then refused, and this is not told.)
fn no_grounds() -> Grounds
    ensures { result ≡ no_grounds }
{
    untried(0, ChosenBy::OwnCondition)
}

// By how many powers of ten a number is multiplied and divided in a number section, and to how many decimals it is rounded there.
#[derive(Drop)]
struct Scaling {
    up: u32,
    down: u32,
    decimals: u32,
}

// That of a section for a number of this scale: a shift above 15 multiplies, one below 15 divides.
fn scaling_of(section: TableSection, scale: u32) -> Scaling
    requires { (scale ≤ 15) × (kind_of (section_of section) ≡ number_kind) }
    ensures { ScalingOf (section_of section.entry) scale result }
{
    let h = section.head();
    let shift = h.shift as u32;
    let up = shift.saturating_sub(15);
    let down = scale + 15u32.saturating_sub(shift);
    Scaling {
        up,
        down,
        decimals: h.decimals as u32,
    }
}

// Whether a number rounds to nought in a number section.
fn number_nought(section: TableSection, v: Signed) -> bool
    requires { (v.scale ≤ 15) × (kind_of (section_of section) ≡ number_kind) }
    ensures { (x : Number) → v ≡ signed_of x → result ≡ eqb (section_rounded (section_of section.entry) x) 0 }
{
    let s = scaling_of(section, v.scale);
    rounds_to_nought(v.magnitude, s.up, s.down, s.decimals)
}

// Whether integer part and numerator are nought in a fraction section.
fn fraction_nought(section: TableSection, v: Signed) -> bool
    requires { (v.magnitude < 10 ^ 15) × (v.scale ≤ 15) × (kind_of (section_of section) ≡ fraction_kind) }
    ensures { (x : Number) → v ≡ signed_of x → result ≡ places_nought (section_of section.entry) x }
{
    let f = section_fraction(section, v).mixed;
    (f.whole == 0) & (f.above == 0)
}

// Exception (b) of the added minus: what a section shows of a number is nought. A mantissa is nought only where the number is.
fn shows_nought(section: TableSection, v: Signed) -> bool
    requires { (v.magnitude < 10 ^ 15) × (v.scale ≤ 15) }
    ensures { (x : Number) → v ≡ signed_of x → result ≡ shows_nought (section_of section.entry) x }
{
    match section.kind() {
        Kind::Literal | Kind::DateTime => false,
        Kind::Number => number_nought(section, v),
        Kind::Scientific => v.magnitude == 0,
        Kind::Fraction => fraction_nought(section, v),
        Kind::General | Kind::Text => general_nought(v.magnitude, v.scale),
    }
}

// What holds the minus of a number back in a section of so many items, the first that applies.
#[tactic(auto, unfolding(crate::specs::Told::minus_told))]
fn minus_told(negative: bool, items: u16, excepted: bool, nought: bool) -> Minus
    ensures { result ≡ minus_told negative (eqb items 0) excepted nought }
{
    if !negative {
        Minus::NotBelow
    } else if items == 0 {
        Minus::NoItem
    } else if excepted {
        Minus::ForNegatives
    } else if nought {
        Minus::Nought
    } else {
        Minus::Added
    }
}

// The minus of a number in a section, where that was chosen.
fn minus_in(section: TableSection, v: Signed) -> Minus
    requires { (v.magnitude < 10 ^ 15) × (v.scale ≤ 15) }
    ensures { (x : Number) (why : Reason) → v ≡ signed_of x
        → choose (sections_of section.entry.table) (number_exact x) ≡ chosen section.entry.place (section_of section.entry) why
        → result ≡ minus_of (number_sign (sections_of section.entry.table) section.entry.place (section_of section.entry) why x) }
{
    let items = section.head().items;
    let excepted = section.no_minus();
    let nought = shows_nought(section, v);
    minus_told(v.negative, items, excepted, nought)
}

// The decimals that a number section cuts off a number.
fn number_cut(section: TableSection, v: Signed) -> u16
    requires { (v.scale ≤ 15) × (kind_of (section_of section) ≡ number_kind) }
    ensures { (x : Number) → v ≡ signed_of x → result ≡ number_cut (section_of section.entry) x }
{
    let s = scaling_of(section, v.scale);
    decimals_cut(v.magnitude, s.up, s.down, s.decimals)
}

// Those that a scientific section cuts off its mantissa.
fn mantissa_cut(section: TableSection, v: Signed) -> u16
    requires { (v.magnitude < 10 ^ 15) × (v.scale ≤ 15) × (kind_of (section_of section) ≡ scientific_kind) }
    ensures { (x : Number) → v ≡ signed_of x → result ≡ number_cut (section_of section.entry) x }
{
    let decimals = section.head().decimals;
    let integers = integer_places(section);
    scientific_cut(v.magnitude, v.scale, integers, u32::from(decimals))
}

// The decimals that a section cuts off a number.
fn section_cut(section: TableSection, v: Signed) -> u16
    requires { (v.magnitude < 10 ^ 15) × (v.scale ≤ 15) }
    ensures { (x : Number) → v ≡ signed_of x → result ≡ number_cut (section_of section.entry) x }
{
    match section.kind() {
        Kind::Literal | Kind::DateTime | Kind::Fraction => 0,
        Kind::Number => number_cut(section, v),
        Kind::Scientific => mantissa_cut(section, v),
        Kind::General | Kind::Text => general_cut(v.magnitude, v.scale),
    }
}

// The reason for a number in a section, where that was chosen.
fn number_in(section: TableSection, v: Signed) -> Grounds
    requires { (v.magnitude < 10 ^ 15) × (v.scale ≤ 15) }
    ensures { (x : Number) (why : Reason) → v ≡ signed_of x
        → choose (sections_of section.entry.table) (number_exact x) ≡ chosen section.entry.place (section_of section.entry) why
        → result ≡ number_grounds (sections_of section.entry.table) x (chosen section.entry.place (section_of section.entry) why) }
{
    let minus = minus_in(section, v);
    let cut = section_cut(section, v);
    chosen_grounds(section, minus, cut)
}

// The reason for a number that is in range.
fn in_range(table: Table, v: Signed) -> Grounds
    requires { (v.magnitude < 10 ^ 15) × (v.scale ≤ 15) }
    ensures { (x : Number) → v ≡ signed_of x → result ≡ grounds_of (sections_of table.entry) (value.Number x) }
{
    match choosing::choose(table, number_sought(InRange { signed: v })) {
        None => no_grounds(),
        Some(i) => number_in(table.section(i), v),
    }
}

// The reason for a number.
fn number_grounds(table: Table, x: Number) -> Grounds
    requires { T (number_in_range x) }
    ensures { result ≡ grounds_of (sections_of table.entry) (value.Number x) }
{
    match figures::take_number(x) {
        None => no_grounds(),
        Some(v) => in_range(table, v),
    }
}

// The reason for an instant, which is not below 0 and of which no decimals are cut.
fn instant_grounds(table: Table, d: Day, m: Millisecond) -> Grounds
    ensures { result ≡ instant_grounds (sections_of table.entry) (choose (sections_of table.entry) (instant_exact d m)) }
{
    match choosing::choose(table, instant_sought(d, m)) {
        None => no_grounds(),
        Some(i) => chosen_grounds(table.section(i), Minus::NotBelow, 0),
    }
}

// The reason for a text.
fn text_grounds(table: Table) -> Grounds
    ensures { result ≡ text_grounds (choose_text (sections_of table.entry)) }
{
    match choosing::choose_text(table) {
        None => untried(4, ChosenBy::NoSection),
        Some(i) => untried(i, ChosenBy::TextSection),
    }
}

// The reason for a value that is shown.
fn grounds_of(table: Table, value: Value) -> Grounds
    requires { T (value_in_range value []) }
    ensures { result ≡ grounds_of (sections_of table.entry) value }
{
    match value {
        Value::Number(x) => number_grounds(table, x),
        Value::Instant(d, m) => instant_grounds(table, d, m),
        Value::Text => text_grounds(table),
    }
}

// Why a value is shown as it is through the words lent as a table, in a room of this size: what refuses the show, else the
// reason. Nothing is asked of the caller, and nothing is written.
pub fn why(words: &[u16], ask: Ask, text: &[u16], size: usize) -> Result<Grounds, Refusal>
    ensures { result ≡ table_why words.now ask text.now size }
{
    answer_of(words, ask, text, size)?;
    Ok(grounds_of(Table { words }, ask.value))
}
