// The text of a fraction section: its whole number, its numerator and its denominator, each shown in the places of its own part.
#![tactic(auto)]

ghost use Rattle.std.specs.Prelude.{◌≡◌, cond, ◌&&◌, List, ◌++◌, ℕ, ◌+◌, ◌≤◌, ◌<◌, ◌^◌, eqb, length, get_or, replicate};
ghost use Rattle.lists.specs.Lists.{any, count};
ghost use Rattle.figures.specs.Digits.{width, numeral};
ghost use Rattle.formats.specs.Items.{fraction_kind, kind_of, is_place, is_space};
ghost use Rattle.formats.specs.Reading.{whole_text, spare_places, denominator_units, below_units};
ghost use Rattle.tables.specs.Decode.{items_at};
ghost use Rattle.table_words.specs.Tabled.{section_of};
ghost use Rattle.writing.specs.Put.{Put};
ghost use Rattle.table_words.specs.Runs.{items_in};
ghost use Rattle.fraction_sections.specs.Fraction.{Segment, Below, FractionReady, mixed_text, loose_text, loose-ends, shown_tag, shown_words};
ghost use Rattle.section_text.specs.Show.{sign_text, fraction_reading, Shows};

use answers::{Refusal, Shown};
use fractions::Mixed;
use scans::{count_between, cut_start};
use section_text::{ShowsItems, Source, Subject, is_roomy, put_items, put_sign, show_whole};
use table_words::TableSection;
use table_words::runs::{run_end, run_start};
use tables::tags;
use writing::{put_unit, units};

const SOLIDUS: u16 = 47;

// Puts a whole number in the places of a segment, whose words these are.
fn put_whole(room: &mut [u16], at: usize, items: &[u16], n: u64) -> usize
    requires { (at ≤ 2 ^ 40) × Segment items.now }
    ensures within { result ≤ at + 260096 }
    ensures put { Put room.old at (whole_text n (items_in items.now)) result room.new }
{
    let mut exact = true;
    let digits = figures::round([0; 40], n, 0, 0, 0, &mut exact);
    let places = count_between(items, tags::ZERO_PLACE, tags::SPACE_PLACE);
    let source = Source {
        subject: Subject {
            figures: figure_text::figures_of(digits, places as u32, false),
            lent: false,
        },
        digits: &digits,
        text: &items[..0],
    };
    put_items(room, at, items, &source)
}

// Puts so many spaces.
fn put_spaces(room: &mut [u16], at: usize, count: usize) -> usize
    requires { (at ≤ 2 ^ 62) × (count ≤ 254) }
    ensures { Put room.old at (replicate count 32) result room.new }
{
    let end = at + count;
    for k in at..end {
        put_unit(room, k, units::SPACE);
    }
    end
}

// Puts a fixed number, of a blank fraction a space for each of its digits.
fn put_fixed(room: &mut [u16], at: usize, n: u16, blank: bool) -> usize
    requires { at < 2 ^ 61 }
    ensures { Put room.old at (cond blank (replicate (width n) 32) (numeral 1 n)) result room.new }
{
    let number = u64::from(n);
    let digits = figures::width_of(number);
    if blank {
        return put_spaces(room, at, digits as usize);
    }
    writing::put_digits(room, at, digits, number)
}

// Items that show no digit: those of a blank fraction, or those behind a denominator.
#[derive(Clone, Copy)]
struct LooseItems {
    blank: bool,
}

impl ShowsItems for LooseItems {
    ghost text = { λ l es us. us ≡ loose_text l.blank (items_at es) };

    ghost ends = { λ l us e. loose-ends l.blank e };

    fn put_item(&self, room: &mut [u16], at: usize, tag: u16, argument: u16) -> usize {
        match tag {
            tags::LITERAL => put_unit(room, at, argument),
            tags::FILL => at,
            tags::FIXED => put_fixed(room, at, argument, self.blank),
            _ => put_unit(room, at, units::SPACE),
        }
    }
}

// Puts the text of items that show no digit, whose words these are.
fn put_loose(room: &mut [u16], at: usize, items: &[u16], blank: bool) -> usize
    requires { (at ≤ 2 ^ 39) × (length items.now ≤ 508) }
    ensures within { result ≤ at + 6350 }
    ensures put { Put room.old at (loose_text blank (items_in items.now)) result room.new }
{
    put_items(room, at, items, &LooseItems { blank })
}

// A word, or 0 behind the last.
fn word_at(words: &[u16], k: usize) -> u16
    ensures { result ≡ get_or words.now k 0 }
{
    words.get(k).copied().unwrap_or(0)
}

// The tag of a place as the denominator shows it: its spare `?` show their spaces behind the digits.
fn shown_tag(tag: u16) -> u16
    ensures { result ≡ shown_tag tag }
{
    if tag == tags::SPACE_PLACE {
        tags::HASH_PLACE
    } else {
        tag
    }
}

// The words of up to three places, as the denominator shows them.
fn shown_words(places: &[u16]) -> [u16; 6]
    ensures { result ≡ shown_words places.now }
{
    [
        shown_tag(word_at(places, 0)),
        word_at(places, 1),
        shown_tag(word_at(places, 2)),
        word_at(places, 3),
        shown_tag(word_at(places, 4)),
        word_at(places, 5),
    ]
}

// How many `?` are among the spare places of a denominator.
fn spare_spaces(places: &[u16], d: u64) -> usize
    requires { length places.now ≤ 6 }
    ensures { (result ≡ count is_space (spare_places d (items_in places.now))) × (result ≤ 3) }
{
    let n = places.len() / 2;
    let shown = (figures::width_of(d) as usize).min(n);
    let spare = n - shown;
    count_between(&places[..2 * spare], tags::SPACE_PLACE, tags::SPACE_PLACE)
}

// Puts the denominator in its places, and behind it the spaces of its spare `?`.
fn put_denominator(room: &mut [u16], at: usize, places: &[u16], d: u64) -> usize
    requires { (at < 2 ^ 40) × (length places.now ≤ 6) × Segment places.now }
    ensures within { result ≤ at + 260099 }
    ensures put { Put room.old at (denominator_units d (items_in places.now)) result room.new }
{
    let shown = shown_words(places);
    let a = put_whole(room, at, &shown[..places.len()], d);
    put_spaces(room, a, spare_spaces(places, d))
}

// Puts what stands from the solidus on: the solidus, the denominator, and what is behind it.
fn put_below(room: &mut [u16], at: usize, from: &[u16], d: u64) -> usize
    requires { (at ≤ 2 ^ 38) × Below from.now }
    ensures within { result ≤ at + 266450 }
    ensures put { Put room.old at (below_units d (items_in from.now)) result room.new }
{
    let a = put_unit(room, at, SOLIDUS);
    let behind = &from[2..];
    let (places, others) = behind.split_at(run_end(behind));
    let b = put_denominator(room, a, places, d);
    put_loose(room, b, others, false)
}

// Whether the fraction is left blank: its numerator is 0, and integer places stand before it.
fn is_blank(whole: &[u16], above: u64) -> bool
    ensures { result ≡ (any is_place (items_in whole.now) && eqb above 0) }
{
    let places = count_between(whole, tags::ZERO_PLACE, tags::SPACE_PLACE);
    (0 < places) & (above == 0)
}

// Puts a fraction section's text: a minus or nothing, the whole number, and then the fraction or its blanks.
fn put_mixed(
    room: &mut [u16],
    minus: bool,
    whole: &[u16],
    numerator: &[u16],
    from: &[u16],
    f: Mixed,
) -> usize
    requires { FractionReady whole.now numerator.now from.now }
    ensures within { result ≤ 786644 }
    ensures put { Put room.old 0
        (sign_text minus ++ mixed_text f (items_in whole.now) (items_in numerator.now) (items_in from.now)) result room.new }
{
    let at = put_sign(room, minus);
    let a = put_whole(room, at, whole, f.whole);
    if is_blank(whole, f.above) {
        let b = put_loose(room, a, numerator, true);
        return put_loose(room, b, from, true);
    }
    let c = put_whole(room, a, numerator, f.above);
    put_below(room, c, from, f.below)
}

// Shows a fraction section; `exact`: the fraction is the number itself.
pub fn show_fraction_section(
    room: &mut [u16],
    size: usize,
    section: TableSection,
    minus: bool,
    f: Mixed,
    exact: bool,
) -> Result<Shown, Refusal>
    requires { (kind_of (section_of section) ≡ fraction_kind) × (f.whole ≤ 10 ^ 15) × (f.above < 10 ^ 19) × (1 ≤ f.below) × (f.below ≤ 999) }
    ensures { Shows (fraction_reading size (section_of section.entry) section.entry.place minus exact f) room.old result room.new }
{
    let colour = section.head().colour;
    let items = section.items();
    let (before, from) = items.split_at(cut_start(items));
    let (whole, numerator) = before.split_at(run_start(before));
    let roomy = is_roomy(size, items.len(), false);
    let place = section.place;
    show_whole(room, size, roomy, move |room| {
        let length = put_mixed(room, minus, whole, numerator, from, f) as u32;
        Shown {
            length,
            colour,
            section: place,
            exact,
        }
    })
}
