// The plan of what is to be shown of a value through a table: a refusal, the text itself, or the section that takes it, with its figures and its
// minus. No room is needed to make it.
#![tactic(auto)]

pub mod in_range;

ghost use Rattle.std.specs.Prelude.{◌≡◌, true, false, List, Ok, ◌≤◌, ◌<◌, ◌^◌, ℕ, T, eqb};
ghost use Rattle.formats.specs.Items.{number_kind, fraction_kind, same_kind, kind_of, integer_places};
ghost use Rattle.formats.specs.Choice.{instant_exact, Reason, chosen, choose};
ghost use Rattle.formats.specs.Reading.{read_instant, shows_general, section_rounded, number_exactly, read_value, reading};
ghost use Rattle.figures.specs.Digits.{figures};
ghost use Rattle.figures.specs.Sign.{signed_of};
ghost use Rattle.values.specs.declared.Number.{Number};
ghost use Rattle.values.specs.declared.Value.TheVariants as value;
ghost use Rattle.tables.specs.Words.{entries_in};
ghost use Rattle.table_words.specs.Tabled.{sections_of, section_of};
ghost use Rattle.choosing.specs.Seeking.{AsksInstant};
ghost use Rattle.figure_text.specs.Shown.{figures_with};
ghost use Rattle.planning.specs.Minus.{minus_told, minus_in};
ghost use Rattle.planning.specs.Number.{AsksNumber, first_argument};
ghost use Rattle.planning.specs.Plan.{BareIs, PlannedIs, PlansNumber, value_reading, bare_plan, digits_plan};

use answers::Refusal;
use choosing::Sought;
use figure_text::{Figures, figures_of};
use figures::Signed;
pub use in_range::InRange;
use section_text::Subject;
use table_words::runs::is_place;
use table_words::{Kind, Table, TableSection};
use values::{Ask, Day, Millisecond, Number, Value};

// What is to be shown of a value: a text by itself, an instant in a date-time section, a number in a scientific or a fraction section, or
// another section, with an added minus or without.
#[derive(Clone, Copy)]
pub enum Plan<'a> {
    Itself,
    Dated(TableSection<'a>, Day, Millisecond),
    Scientific(TableSection<'a>, Signed),
    Fraction(TableSection<'a>, Signed),
    Section(TableSection<'a>, bool, Subject),
}

// A plan, the digits of the segment that a section has, and whether what it shows is exact. (Beside the plan: in a section's subject it
// would be passed on to every item.)
#[derive(Clone, Copy)]
pub struct Planned<'a> {
    pub plan: Plan<'a>,
    pub digits: [u8; 40],
    pub exact: bool,
}

// A plan that needs no digits: a section that is so planned is exact.
fn without_digits<'a>(plan: Plan<'a>) -> Planned<'a>
    ensures { (result.plan ≡ plan.entry) × (result.exact ≡ true) }
{
    Planned {
        plan,
        digits: [0; 40],
        exact: true,
    }
}

// A section that shows no figures.
fn bare<'a>(section: TableSection<'a>, minus: bool, lent: bool) -> Plan<'a>
    ensures { result ≡ bare_plan section.entry minus lent }
{
    Plan::Section(
        section,
        minus,
        Subject {
            figures: Figures {
                used: 0,
                first: 40,
                grouped: false,
            },
            lent,
        },
    )
}

// The plan of an instant in a section, where that takes one.
fn instant_in<'a>(section: TableSection<'a>, d: Day, m: Millisecond) -> Result<Plan<'a>, Refusal>
    ensures { (text : List ℕ) (why : Reason)
        → choose (sections_of section.entry.table) (instant_exact d m) ≡ chosen section.entry.place (section_of section.entry) why
        → BareIs result section.entry.table text (λ size. read_instant d m size (choose (sections_of section.entry.table) (instant_exact d m))) }
{
    match section.kind() {
        Kind::DateTime => Ok(Plan::Dated(section, d, m)),
        Kind::Literal => Ok(bare(section, false, false)),
        _ => Err(Refusal::Sort),
    }
}

// An instant as the chooser is asked for it.
pub fn instant_sought(d: Day, m: Millisecond) -> Sought
    ensures { AsksInstant d m result }
{
    Sought {
        negative: false,
        instant: true,
        above: d.0 as u64 * 86400000 + m.0 as u64,
        scale: 0,
    }
}

// The plan of an instant; one out of range is refused.
fn instant_plan<'a>(table: Table<'a>, d: Day, m: Millisecond) -> Result<Plan<'a>, Refusal>
    ensures { (text : List ℕ) → BareIs result table.entry text (value_reading table.entry.words.now (value.Instant d m) text) }
{
    if Day::GREATEST < d.0 {
        return Err(Refusal::Range);
    }
    if Millisecond::GREATEST < m.0 {
        return Err(Refusal::Range);
    }
    match choosing::choose(table, instant_sought(d, m)) {
        None => Err(Refusal::NoSection),
        Some(i) => instant_in(table.section(i), d, m),
    }
}

// The plan of a text; one that is too long is refused.
fn text_plan<'a>(table: Table<'a>, text: &[u16]) -> Result<Plan<'a>, Refusal>
    ensures { BareIs result table.entry text.now (value_reading table.entry.words.now value.Text text.now) }
{
    if 1024 < text.len() {
        return Err(Refusal::Range);
    }
    match choosing::choose_text(table) {
        None => Ok(Plan::Itself),
        Some(i) => Ok(bare(table.section(i), false, true)),
    }
}

// Whether a number has an added minus in a section of so many items, where the exceptions hold or do not.
fn has_minus(negative: bool, items: u16, excepted: bool, nought: bool) -> bool
    ensures { result ≡ minus_told negative (eqb items 0) excepted nought }
{
    (items != 0) & !excepted & !nought & negative
}

// The added minus of a number in a section; `nought`: the figures that it shows are nought.
pub fn added_minus(section: TableSection, negative: bool, nought: bool) -> bool
    ensures { result ≡ minus_in section.entry negative nought }
{
    let h = section.head();
    has_minus(negative, h.items, section.no_minus(), nought)
}

// A section with the digits of a rounded number, which is exact or not.
fn with_digits<'a>(
    section: TableSection<'a>,
    negative: bool,
    digits: [u8; 40],
    exact: bool,
    integers: u32,
    grouped: bool,
) -> Planned<'a>
    ensures { (result.plan ≡ digits_plan section.entry negative (figures_with digits integers grouped)) × (result.digits ≡ digits) × (result.exact ≡ exact) }
{
    let figures = figures_of(digits, integers, grouped);
    let minus = added_minus(section, negative, figures.used == 0);
    Planned {
        plan: Plan::Section(
            section,
            minus,
            Subject {
                figures,
                lent: false,
            },
        ),
        digits,
        exact,
    }
}

// The plan of a number in a section that shows General. (That a number is in range is required of it here and below: as a ghost field of
// Signed it could not be, since `signed_of` makes a Signed of any number.)
fn general_plan<'a>(section: TableSection<'a>, v: Signed) -> Result<Planned<'a>, Refusal>
    requires { (v.magnitude < 10 ^ 15) × T (shows_general (kind_of (section_of section))) }
    ensures { PlansNumber section.entry v result }
{
    if figures::general_too_wide(v.magnitude, v.scale) {
        return Err(Refusal::General);
    }
    let mut exact = true;
    let digits = figures::round_general([0; 40], v.magnitude, v.scale, &mut exact);
    Ok(with_digits(section, v.negative, digits, exact, 0, false))
}

// The argument of the first place among item words; 15 where there is none.
fn first_argument(items: &[u16]) -> u16
    ensures { result ≡ first_argument (entries_in items.now) }
{
    let first = items.chunks_exact(2).find(|entry| is_place(entry[0]));
    first.map_or(15, |entry| entry[1])
}

// How many integer places a section has, which is no fraction: powers run down by one from the first place, whose argument is 16 more
// than its power.
pub fn integer_places(section: TableSection) -> u32
    requires { same_kind (kind_of (section_of section)) fraction_kind ≡ false }
    ensures { result ≡ integer_places (section_of section.entry).items }
{
    first_argument(section.items()) as u32 - 15
}

// A number rounded as a number section shows it: a shift above 15 multiplies, one below 15 divides. (`exact` is lent, as `round` does: a struct
// that held the digits would be copied, and slower.)
fn number_digits(section: TableSection, v: Signed, exact: &mut bool) -> [u8; 40]
    requires { (v.magnitude < 10 ^ 15) × (v.scale ≤ 15) × (kind_of (section_of section) ≡ number_kind) }
    ensures digits { (x : Number) → v ≡ signed_of x → result ≡ figures (section_rounded (section_of section.entry) x) }
    ensures exact { (x : Number) → v ≡ signed_of x → exact.new ≡ number_exactly (section_of section.entry) x }
{
    let h = section.head();
    let shift = h.shift as u32;
    let decimals = h.decimals as u32;
    let up = shift.saturating_sub(15);
    let down = v.scale + 15u32.saturating_sub(shift);
    figures::round([0; 40], v.magnitude, up, down, decimals, exact)
}

// The plan of a number in a number section.
fn figures_plan<'a>(section: TableSection<'a>, v: Signed) -> Planned<'a>
    requires { (v.magnitude < 10 ^ 15) × (v.scale ≤ 15) × (kind_of (section_of section) ≡ number_kind) }
    ensures { PlansNumber section.entry v (Ok result) }
{
    let mut exact = true;
    let digits = number_digits(section, v, &mut exact);
    let integers = integer_places(section);
    with_digits(
        section,
        v.negative,
        digits,
        exact,
        integers,
        section.is_grouped(),
    )
}

// The plan of a number in a section, by the section's kind.
fn number_in<'a>(section: TableSection<'a>, v: Signed) -> Result<Planned<'a>, Refusal>
    requires { (v.magnitude < 10 ^ 15) × (v.scale ≤ 15) }
    ensures { PlansNumber section.entry v result }
{
    match section.kind() {
        Kind::Literal => {
            let minus = added_minus(section, v.negative, false);
            Ok(without_digits(bare(section, minus, false)))
        }
        Kind::Number => Ok(figures_plan(section, v)),
        Kind::DateTime => Err(Refusal::Sort),
        Kind::Scientific => Ok(without_digits(Plan::Scientific(section, v))),
        Kind::Fraction => Ok(without_digits(Plan::Fraction(section, v))),
        Kind::General | Kind::Text => general_plan(section, v),
    }
}

// A number as the chooser is asked for it.
pub fn number_sought(v: InRange) -> Sought
    ensures { AsksNumber v.signed result }
{
    let signed = v.signed;
    Sought {
        negative: signed.negative,
        instant: false,
        above: signed.magnitude,
        scale: signed.scale,
    }
}

// The plan of a number that is in range.
fn number_in_range<'a>(table: Table<'a>, v: Signed) -> Result<Planned<'a>, Refusal>
    requires { (v.magnitude < 10 ^ 15) × (v.scale ≤ 15) }
    ensures { (text : List ℕ) (x : Number) → v ≡ signed_of x
        → PlannedIs result table.entry text (read_value (sections_of table.entry) (value.Number x) text) }
{
    match choosing::choose(table, number_sought(InRange { signed: v })) {
        None => Err(Refusal::NoSection),
        Some(i) => number_in(table.section(i), v),
    }
}

// The plan of a number; one out of range is refused.
fn number_plan<'a>(table: Table<'a>, x: Number) -> Result<Planned<'a>, Refusal>
    ensures { (text : List ℕ) → PlannedIs result table.entry text (value_reading table.entry.words.now (value.Number x) text) }
{
    match figures::take_number(x) {
        None => Err(Refusal::Range),
        Some(v) => number_in_range(table, v),
    }
}

// The plan of what is asked for: no room is needed to make it.
pub fn plan_of<'a>(table: Table<'a>, ask: Ask, text: &[u16]) -> Result<Planned<'a>, Refusal>
    ensures { PlannedIs result table.entry text.now (reading (sections_of table.entry) ask text.now) }
{
    match ask.value {
        Value::Number(x) => number_plan(table, x),
        Value::Instant(d, m) => Ok(without_digits(instant_plan(table, d, m)?)),
        Value::Text => Ok(without_digits(text_plan(table, text)?)),
    }
}
