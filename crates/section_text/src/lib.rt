// The text of a section's items, shown whole in a room or not at all. A room has `size` units, of which those in front are lent: all of
// them to show a text, none to ask whether it would be shown.
#![tactic(auto)]

ghost use Rattle.std.specs.Prelude.{◌≡◌, true, false, List, [], ◌∷◌, ◌++◌, ℕ, ◌+◌, ◌*◌, ◌≤◌, ◌<◌, ◌^◌, T, length};
ghost use Rattle.formats.specs.Items.{kind_of, integer_places};
ghost use Rattle.formats.specs.Reading.{Look, within};
ghost use Rattle.formats.specs.Text.{Context};
ghost use Rattle.tables.specs.Words.{Entry, entries_in};
ghost use Rattle.tables.specs.Encode.{entry};
ghost use Rattle.table_words.specs.Tabled.{section_of};
ghost use Rattle.writing.specs.Put.{Put};
ghost use Rattle.section_text.specs.Subject.{StandsFor, SubjectIs};
ghost use Rattle.section_text.specs.Walk.{Begins, PutsFirst, HasText, TextOf, text-ends, Known};
ghost use Rattle.section_text.specs.Show.{sign_text, section_reading, Shows, Writes};

use answers::{Refusal, Shown};
use figure_text::Figures;
use table_words::TableSection;
use table_words::runs::is_place;
use tables::tags;
use writing::{put_unit, units};

// What a section's items are shown from, a date-time section's apart: a number's figures, in a number section those that its
// places show, in a scientific section those of its mantissa, in others General's; `lent`: General and `@` stand for the text lent
// beside it.
#[derive(Clone, Copy)]
pub struct Subject {
    pub figures: Figures,
    pub lent: bool,
}

pub const MINUS: u16 = 45;

// What shows items one behind another.
pub trait ShowsItems {
    // `text s es us`: the items that stand for these entries are shown as these units
    ghost text: { Self → List Entry → List ℕ → Type 0 };

    // Puts the text of the item that a table has under this tag with this argument. (A place's argument is one more than the place
    // of its digit.)
    fn put_item(&self, room: &mut [u16], at: usize, tag: u16, argument: u16) -> usize
        requires { (at < 2 ^ 61) × Begins (text self.now) (entry tag argument) }
        ensures { PutsFirst (text self.now) (entry tag argument) room.old at result room.new };

    // no item is shown as no unit
    ghost ends: { (s : Self) (us : List ℕ) → text s [] us → us ≡ [] };
}

// Puts the text of items, whose words these are: of a section, or of a part of one with digits and places of its own.
// (A number section is one part; a scientific section has one before the E and one from it on, a fraction one for each of its numbers.)
pub fn put_items<I: ShowsItems>(room: &mut [u16], at: usize, items: &[u16], from: &I) -> usize
    requires { (at ≤ 2 ^ 40) × HasText (I.text from.now) (entries_in items.now) }
    ensures within { result ≤ at + 260096 }
    ensures put { (us : List ℕ) → I.text from.now (entries_in items.now) us → Put room.old at us result room.new }
{
    let mut end = at;
    for pair in items.chunks_exact(2) {
        end = from.put_item(room, end, pair[0], pair[1]);
    }
    end
}

// A subject with what it speaks of: the digits of its figures, and the text that is lent.
#[derive(Clone, Copy)]
pub struct Source<'a> {
    pub subject: Subject,
    pub digits: &'a [u8; 40],
    pub text: &'a [u16],
    pub ghost used: { subject.figures.used ≤ 40 },
    pub ghost short: { subject.lent ≡ true → length text.now ≤ 1024 },
}

impl<'a> Source<'a> {
    // Puts what General and `@` stand for.
    fn put_standing(&self, room: &mut [u16], at: usize) -> usize
        requires { at < 2 ^ 61 }
        ensures { (us : List ℕ) → StandsFor self.now.subject.lent self.now.digits.now self.now.subject.figures self.now.text.now us
            → Put room.old at us result room.new }
    {
        if self.subject.lent {
            return writing::put_units(room, at, self.text);
        }
        figure_text::put_general(room, at, self.digits, self.subject.figures)
    }
}

// The items are none of a date-time section's own, and none of a scientific or fraction section's.
impl<'a> ShowsItems for Source<'a> {
    ghost text = { λ s. TextOf (λ k. SubjectIs k s.digits.now s.subject s.text.now) };

    ghost ends = { λ s us t. text-ends t };

    fn put_item(&self, room: &mut [u16], at: usize, tag: u16, argument: u16) -> usize {
        if is_place(tag) {
            let q = argument as usize - 1;
            return figure_text::put_place(room, at, self.digits, self.subject.figures, tag, q);
        }
        match tag {
            tags::LITERAL => put_unit(room, at, argument),
            tags::BLANK => put_unit(room, at, units::SPACE),
            tags::FILL => at,
            tags::POINT => figure_text::put_point(room, at, self.digits, self.subject.figures),
            tags::PERCENT => put_unit(room, at, 37),
            tags::GENERAL => self.put_standing(room, at),
            tags::AT => self.put_standing(room, at),
            _ => at,
        }
    }
}

// Puts a minus, or nothing.
pub fn put_sign(room: &mut [u16], minus: bool) -> usize
    ensures within { result ≤ 1 }
    ensures put { Put room.old 0 (sign_text minus) result room.new }
{
    if minus {
        return put_unit(room, 0, MINUS);
    }
    0
}

// Puts a section's text: a minus or nothing, and then its items'.
pub fn put_text(room: &mut [u16], minus: bool, items: &[u16], source: Source) -> usize
    requires { HasText (TextOf (λ k. SubjectIs k source.digits.now source.subject source.text.now)) (entries_in items.now) }
    ensures within { result ≤ 260097 }
    ensures put { (us : List ℕ) → TextOf (λ k. SubjectIs k source.entry.digits.now source.entry.subject source.entry.text.now) (entries_in items.now) us
        → Put room.old 0 (sign_text minus ++ us) result room.new }
{
    let at = put_sign(room, minus);
    put_items(room, at, items, &source)
}

// Whether a room of this size surely takes the text of so many item words: 82 units an item, and a minus.
pub fn is_roomy(size: usize, words: usize, lent: bool) -> bool
    requires { words ≤ 508 }
    ensures { result ≡ true → (lent ≡ false) × (41 * words + 1 ≤ size) }
{
    !lent & (41 * words + 1 <= size)
}

// Shows a text where the room takes it: `put` puts it and tells what is shown. Only where the room may not take it is the text measured:
// it is put into no room.
pub fn show_whole<F: Fn(&mut [u16]) -> Shown>(
    room: &mut [u16],
    size: usize,
    is_roomy: bool,
    put: F,
) -> Result<Shown, Refusal>
    requires { F.IsAlwaysCallable put }
    ensures { (look : Look) → Writes (F.post put) look → (is_roomy ≡ true → length look.text ≤ size)
        → Shows (within size look) room.old result room.new }
{
    if !is_roomy {
        let mut none = [0; 1];
        let measured = put(&mut none[..0]);
        if size < measured.length as usize {
            return Err(Refusal::TextRoom);
        }
    }
    Ok(put(room))
}

// Shows a section that is no date-time section; `exact`: what it shows is.
pub fn show_section(
    room: &mut [u16],
    size: usize,
    section: TableSection,
    minus: bool,
    source: Source,
    exact: bool,
) -> Result<Shown, Refusal>
    requires { Known (kind_of (section_of section)) source.digits.now source.subject source.text.now }
    ensures { (c : Context) → SubjectIs (kind_of (section_of section.entry)) source.entry.digits.now source.entry.subject source.entry.text.now c
        → c.integer_places ≡ integer_places (section_of section.entry).items
        → Shows (section_reading size (section_of section.entry) section.entry.place minus exact c) room.old result room.new }
{
    let colour = section.head().colour;
    let items = section.items();
    let roomy = is_roomy(size, items.len(), source.subject.lent);
    let place = section.place;
    show_whole(room, size, roomy, move |room| {
        let length = put_text(room, minus, items, source) as u32;
        Shown {
            length,
            colour,
            section: place,
            exact,
        }
    })
}
