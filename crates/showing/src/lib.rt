// Shows a value through a table, as it is planned. What is written goes into a room of `size` units, of which those in front are lent: all of
// them to show a value, none to ask what would be answered.
#![tactic(auto)]

ghost use Rattle.std.specs.Prelude.{◌≡◌, true, false, ◌≤◌, ◌<◌, ◌^◌, length};
ghost use Rattle.lists.specs.Lists.{any};
ghost use Rattle.formats.specs.Items.{date_kind, scientific_kind, fraction_kind, kind_of, is_place, before_end};
ghost use Rattle.formats.specs.Reading.{look_of, within, instant_context, section_fraction, number_exactly, instant_exactly, reading};
ghost use Rattle.figures.specs.Sign.{signed_of};
ghost use Rattle.values.specs.declared.Number.{Number};
ghost use Rattle.tables.specs.Calls.{table_reading, showing, room_after};
ghost use Rattle.table_words.specs.Tabled.{sections_of, section_of};
ghost use Rattle.table_words.specs.Runs.{items_in};
ghost use Rattle.section_text.specs.Show.{section_reading, Shows};
ghost use Rattle.planning.specs.Plan.{NumberOf, scientific_of, fraction_shown};

use answers::{Refusal, Shown};
use date_sections::show_dated_section;
use figure_text::figures_of;
use figures::Signed;
use fraction_sections::show_fraction_section;
use fractions::{Nearest, fixed_fraction, nearest_fraction};
use planning::{Plan, added_minus, integer_places, plan_of};
use scans::{count_between, cut_start};
use scientific_sections::show_scientific_section;
use section_text::{Source, Subject, show_section};
use table_words::runs::run_start;
use table_words::{Table, TableSection};
use tables::tags;
use values::{Ask, Day, Millisecond};

// Shows a text by itself.
fn show_plain(room: &mut [u16], size: usize, text: &[u16]) -> Result<Shown, Refusal>
    requires { length text.now ≤ 1024 }
    ensures { Shows (within size (look_of text.now 0 4 true)) room.old result room.new }
{
    if size < text.len() {
        return Err(Refusal::TextRoom);
    }
    let end = writing::put_units(room, 0, text);
    Ok(Shown {
        length: end as u32,
        colour: 0,
        section: 4,
        exact: true,
    })
}

// Shows an instant in a date-time section.
fn show_dated(
    room: &mut [u16],
    size: usize,
    section: TableSection,
    d: Day,
    m: Millisecond,
) -> Result<Shown, Refusal>
    requires { kind_of (section_of section) ≡ date_kind }
    ensures { Shows (section_reading size (section_of section.entry) section.entry.place false
        (instant_exactly (section_of section.entry) m) (instant_context (section_of section.entry) d m)) room.old result room.new }
{
    let dated = date_text::shows_date(section.items());
    let moment = date_text::moment_of(section.is_twelve_hour(), dated, d, m);
    show_dated_section(room, size, section, &moment, m)
}

// Shows a number in a scientific section. (The plan has the number alone: the mantissa's digits and the exponent
// would be carried through it by every value.)
fn show_scientific(
    room: &mut [u16],
    size: usize,
    section: TableSection,
    v: Signed,
) -> Result<Shown, Refusal>
    requires { (kind_of (section_of section) ≡ scientific_kind) × (v.magnitude < 10 ^ 15) × (v.scale ≤ 15) × NumberOf v }
    ensures { (x : Number) → v ≡ signed_of x
        → Shows (scientific_of section.entry v.negative x size) room.old result room.new }
{
    let decimals = section.head().decimals;
    let integers = integer_places(section);
    let x = exponents::round_scientific(v.magnitude, v.scale, integers, u32::from(decimals));
    let digits = x.digits;
    let figures = figures_of(digits, integers, false);
    let minus = added_minus(section, v.negative, figures.used == 0);
    let mantissa = Source {
        subject: Subject {
            figures,
            lent: false,
        },
        digits: &digits,
        text: &section.table.words[..0],
    };
    show_scientific_section(
        room, size, section, minus, mantissa, x.exponent, x.below, x.exact,
    )
}

// Whether there is an integer place among the item words before a solidus: a place before the run at their end, the numerator's.
fn is_parted(before: &[u16]) -> bool
    ensures { result ≡ any is_place (before_end (items_in before.now)) }
{
    let end = run_start(before);
    0 < count_between(&before[..end], tags::ZERO_PLACE, tags::SPACE_PLACE)
}

// The fraction of a number in a fraction section. Directly behind its solidus stands the fixed number or a place.
pub fn section_fraction(section: TableSection, v: Signed) -> Nearest
    requires { (kind_of (section_of section) ≡ fraction_kind) × (v.magnitude < 10 ^ 15) × (v.scale ≤ 15) }
    ensures is { (x : Number) → v ≡ signed_of x → result.mixed ≡ section_fraction (section_of section.entry) x }
    ensures exact { (x : Number) → v ≡ signed_of x → result.exact ≡ number_exactly (section_of section.entry) x }
    ensures small { (result.mixed.whole ≤ 10 ^ 15) × (result.mixed.above < 10 ^ 19) × (1 ≤ result.mixed.below) × (result.mixed.below ≤ 999) }
{
    let items = section.items();
    let (before, from) = items.split_at(cut_start(items));
    let parted = is_parted(before);
    if from[2] == tags::FIXED {
        return fixed_fraction(v.magnitude, v.scale, parted, u32::from(from[3]));
    }
    let places = count_between(from, tags::ZERO_PLACE, tags::SPACE_PLACE);
    nearest_fraction(v.magnitude, v.scale, parted, places as u32)
}

// Shows a number in a fraction section.
fn show_fraction(
    room: &mut [u16],
    size: usize,
    section: TableSection,
    v: Signed,
) -> Result<Shown, Refusal>
    requires { (kind_of (section_of section) ≡ fraction_kind) × (v.magnitude < 10 ^ 15) × (v.scale ≤ 15) }
    ensures { (x : Number) → v ≡ signed_of x
        → Shows (fraction_shown section.entry v.negative x size) room.old result room.new }
{
    let x = section_fraction(section, v);
    let f = x.mixed;
    let nought = (f.whole == 0) & (f.above == 0);
    let minus = added_minus(section, v.negative, nought);
    show_fraction_section(room, size, section, minus, f, x.exact)
}

// Shows a value through a table.
fn show_value(
    room: &mut [u16],
    size: usize,
    table: Table,
    ask: Ask,
    text: &[u16],
) -> Result<Shown, Refusal>
    ensures { Shows (reading (sections_of table.entry) ask text.now size) room.old result room.new }
{
    let planned = plan_of(table, ask, text)?;
    let digits = planned.digits;
    match planned.plan {
        Plan::Itself => show_plain(room, size, text),
        Plan::Dated(section, d, m) => show_dated(room, size, section, d, m),
        Plan::Scientific(section, v) => show_scientific(room, size, section, v),
        Plan::Fraction(section, v) => show_fraction(room, size, section, v),
        Plan::Section(section, minus, subject) => {
            let source = Source {
                subject,
                digits: &digits,
                text,
            };
            show_section(room, size, section, minus, source, planned.exact)
        }
    }
}

// Shows a value through the words lent as a table.
fn show_in(
    words: &[u16],
    ask: Ask,
    text: &[u16],
    room: &mut [u16],
    size: usize,
) -> Result<Shown, Refusal>
    ensures { Shows (table_reading words.now ask text.now size) room.old result room.new }
{
    let Some(table) = checking::table_of(words) else {
        return Err(Refusal::Table);
    };
    show_value(room, size, table, ask, text)
}

// What `show` answers in a room of so many units: no room is lent, and nothing is written.
pub fn answer_of(table: &[u16], ask: Ask, text: &[u16], size: usize) -> Result<Shown, Refusal>
    ensures { result ≡ showing table.now ask text.now size }
{
    let mut none = [0; 1];
    show_in(table, ask, text, &mut none[..0], size)
}

// Shows a value through the words lent as a table. Nothing is asked of the caller: words that break a table rule are answered 8,
// and a value out of range 9. `text` is read only where the value is a text.
pub fn show(table: &[u16], ask: Ask, text: &[u16], room: &mut [u16]) -> Result<Shown, Refusal>
    ensures result { result ≡ showing table.now ask text.now (length room.old) }
    ensures room { room.new ≡ room_after table.now ask text.now room.old }
{
    let size = room.len();
    show_in(table, ask, text, room, size)
}
