// The text of a scientific section, shown whole in a room or not at all: its mantissa, then what stands from its E on.
#![tactic(auto)]

ghost use Rattle.std.specs.Prelude.{◌≡◌, false, cond, ◌&&◌, List, [], ◌∷◌, ◌++◌, ℕ, suc, ◌+◌, ◌/◌, ◌%◌, ◌≤◌, ◌<◌, ◌^◌, ltb, eqb};
ghost use Rattle.figures.specs.Digits.{digit_unit};
ghost use Rattle.formats.specs.Items.{number_kind, scientific_kind, kind_of, integer_places, places_behind};
ghost use Rattle.formats.specs.Text.{Context, idle_units, place_units, exponent_units};
ghost use Rattle.tables.specs.Words.{entries_in};
ghost use Rattle.table_words.specs.Tabled.{section_of};
ghost use Rattle.writing.specs.Put.{Put};
ghost use Rattle.figure_text.specs.Shown.{place_of_tag};
ghost use Rattle.section_text.specs.Subject.{SubjectIs};
ghost use Rattle.section_text.specs.Walk.{HasText, TextOf, text-ends, Known};
ghost use Rattle.section_text.specs.Show.{sign_text, scientific_reading, Shows};
ghost use Rattle.scientific_sections.specs.Power.{ExponentIs, PowerIs, left_at, mark_of_tag};

use answers::{Refusal, Shown};
use scans::{count_between, cut_start};
use section_text::{MINUS, ShowsItems, Source, is_roomy, put_items, put_text, show_whole};
use table_words::TableSection;
use table_words::runs::is_place;
use tables::tags;
use writing::{digit_unit, put_unit, units};

// An exponent below 100, as a scientific section's items from the E on show it: its distance from 0, whether it is below 0, and
// how many places it has.
#[derive(Clone, Copy)]
struct Power {
    size: u32,
    below: bool,
    places: usize,
    ghost small: { size < 100 },
    ghost some: { 1 ≤ places },
    ghost few: { places ≤ 254 },
}

const LETTER_E: u16 = 69;

const PLUS: u16 = 43;

// What is left of an exponent from the digit of a place, told by its argument, up.
fn left_at(size: u32, argument: u16) -> u32
    requires { size < 100 }
    ensures { (result ≡ left_at size argument) × (result < 100) }
{
    match argument {
        16 => size,
        17 => size / 10,
        _ => 0,
    }
}

// Puts the digit beyond the first place, where there is one: of a number below 100 it is the only one.
fn put_beyond(room: &mut [u16], at: usize, left: u32, first: bool) -> usize
    requires { (at < 2 ^ 62) × (left < 100) }
    ensures within { result ≤ at + 1 }
    ensures put { Put room.old at (cond (first && ltb 9 left) (digit_unit (left / 10) ∷ []) []) result room.new }
{
    if first & (9 < left) {
        return put_unit(room, at, digit_unit((left / 10) as u8));
    }
    at
}

// Puts what a place, told by its tag, shows of the lowest digit of what is left.
fn put_lowest(room: &mut [u16], at: usize, place: u16, left: u32) -> usize
    requires { at < 2 ^ 62 + 1 }
    ensures { Put room.old at (cond (eqb left 0) (idle_units (place_of_tag place)) (digit_unit (left % 10) ∷ [])) result room.new }
{
    if (left != 0) | (place == tags::ZERO_PLACE) {
        return put_unit(room, at, digit_unit((left % 10) as u8));
    }
    if place == tags::HASH_PLACE {
        return at;
    }
    put_unit(room, at, units::SPACE)
}

// Puts an E, told by its tag, with its sign: `E-` shows no plus.
fn put_mark(room: &mut [u16], at: usize, mark: u16, below: bool) -> usize
    requires { at < 2 ^ 62 }
    ensures { Put room.old at (exponent_units (mark_of_tag mark) below) result room.new }
{
    let a = put_unit(room, at, LETTER_E);
    if below {
        return put_unit(room, a, MINUS);
    }
    if mark == tags::EXPONENT_PLUS {
        return put_unit(room, a, PLUS);
    }
    a
}

impl Power {
    // Puts what a place of the exponent shows.
    fn put_place(&self, room: &mut [u16], at: usize, place: u16, argument: u16) -> usize
        requires { at < 2 ^ 62 }
        ensures { (c : Context) (q : ℕ) → ExponentIs self.now.size self.now.below c → c.integer_places ≡ self.now.places → argument ≡ suc q
            → Put room.old at (place_units c (place_of_tag place) q) result room.new }
    {
        let left = left_at(self.size, argument);
        let a = put_beyond(room, at, left, argument as usize == 15 + self.places);
        put_lowest(room, a, place, left)
    }
}

// The items from the E on. (No table has a point or a `?` there: they are shown as an integer part's.)
impl ShowsItems for Power {
    ghost text = { λ p. TextOf (PowerIs p.size p.below p.places) };

    ghost ends = { λ p us t. text-ends t };

    fn put_item(&self, room: &mut [u16], at: usize, tag: u16, argument: u16) -> usize {
        if is_place(tag) {
            return self.put_place(room, at, tag, argument);
        }
        if tags::EXPONENT_PLUS <= tag {
            return put_mark(room, at, tag, self.below);
        }
        match tag {
            tags::LITERAL => put_unit(room, at, argument),
            tags::BLANK => put_unit(room, at, units::SPACE),
            tags::POINT => put_unit(room, at, units::POINT),
            _ => at,
        }
    }
}

// Puts a scientific section's text: a minus or nothing, then the items' before the E, then those' from the E on.
fn put_scientific(
    room: &mut [u16],
    minus: bool,
    before: &[u16],
    from: &[u16],
    mantissa: Source,
    power: Power,
) -> usize
    requires before { HasText (TextOf (λ k. SubjectIs k mantissa.digits.now mantissa.subject mantissa.text.now)) (entries_in before.now) }
    requires from { HasText (TextOf (PowerIs power.size power.below power.places)) (entries_in from.now) }
    ensures within { result ≤ 520193 }
    ensures put { (us vs : List ℕ) → TextOf (λ k. SubjectIs k mantissa.entry.digits.now mantissa.entry.subject mantissa.entry.text.now) (entries_in before.now) us
        → TextOf (PowerIs power.size power.below power.places) (entries_in from.now) vs
        → Put room.old 0 (sign_text minus ++ (us ++ vs)) result room.new }
{
    let at = put_text(room, minus, before, mantissa);
    put_items(room, at, from, &power)
}

// Shows a scientific section: the source is that of the mantissa, exact or not.
pub fn show_scientific_section(
    room: &mut [u16],
    size: usize,
    section: TableSection,
    minus: bool,
    mantissa: Source,
    exponent: u32,
    below: bool,
    exact: bool,
) -> Result<Shown, Refusal>
    requires { (kind_of (section_of section) ≡ scientific_kind) × (mantissa.subject.lent ≡ false) × (exponent < 100)
        × Known number_kind mantissa.digits.now mantissa.subject mantissa.text.now }
    ensures { (m e : Context) → SubjectIs number_kind mantissa.entry.digits.now mantissa.entry.subject mantissa.entry.text.now m
        → m.integer_places ≡ integer_places (section_of section.entry).items
        → ExponentIs exponent below e → e.integer_places ≡ places_behind (section_of section.entry).items
        → Shows (scientific_reading size (section_of section.entry) section.entry.place minus exact m e) room.old result room.new }
{
    let colour = section.head().colour;
    let items = section.items();
    let start = cut_start(items);
    let (before, from) = items.split_at(start);
    let power = Power {
        size: exponent,
        below,
        places: count_between(from, tags::ZERO_PLACE, tags::SPACE_PLACE),
    };
    let roomy = is_roomy(size, items.len(), false);
    let place = section.place;
    show_whole(room, size, roomy, move |room| {
        let length = put_scientific(room, minus, before, from, mantissa, power) as u32;
        Shown {
            length,
            colour,
            section: place,
            exact,
        }
    })
}
