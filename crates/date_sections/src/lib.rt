// The text of a date-time section, shown whole in a room or not at all; section_text says of which room.
#![tactic(auto)]

ghost use Rattle.std.specs.Prelude.{◌≡◌, false, List, ℕ, ◌≤◌, ◌<◌, ◌^◌, min, T};
ghost use Rattle.lists.specs.Lists.{any};
ghost use Rattle.formats.specs.Items.{date_kind, kind_of, integer_places};
ghost use Rattle.formats.specs.Reading.{day_span, item_span, finest_span, instant_exactly};
ghost use Rattle.formats.specs.Text.{Context};
ghost use Rattle.tables.specs.Words.{entries_in};
ghost use Rattle.tables.specs.Encode.{entry, entries_of};
ghost use Rattle.tables.specs.Decode.{item_at};
ghost use Rattle.tables.specs.Rules.{entry_in_range};
ghost use Rattle.table_words.specs.Tabled.{section_of};
ghost use Rattle.writing.specs.Put.{Put};
ghost use Rattle.date_text.specs.Moment.{dated_entry};
ghost use Rattle.table_words.specs.Runs.{items_in};
ghost use Rattle.date_sections.specs.Dated.{MomentIs, DatedIs, DatedKnown};
ghost use Rattle.section_text.specs.Walk.{HasText, ItemPut, TextOf};
ghost use Rattle.section_text.specs.Show.{section_reading, Shows};

use answers::{Refusal, Shown};
use date_text::{Moment, Written};
use section_text::{is_roomy, show_whole};
use table_words::TableSection;
use tables::tags;
use values::Millisecond;
use writing::{put_unit, units};

// Puts the text of a date-time section's item, and keeps the finest unit shown. (The other walker, put_items, keeps nothing: this one has a
// loop of its own.)
fn put_dated_item(
    room: &mut [u16],
    at: usize,
    tag: u16,
    word: u16,
    m: &Moment,
    finest: u32,
) -> Written
    requires { (at < 2 ^ 61) × T (entry_in_range (entry tag word)) × (tag < 22) × (finest ≤ day_span) }
    ensures put { ItemPut (DatedIs m.now (dated_entry (entry tag word))) (entry tag word) room.old at result.end room.new }
    ensures finest { result.finest ≡ min finest (item_span (item_at (entry tag word))) }
{
    if tags::AT < tag {
        return date_text::put_moment_item(room, at, tag, word, m, finest);
    }
    let end = match tag {
        tags::LITERAL => put_unit(room, at, word),
        tags::BLANK => put_unit(room, at, units::SPACE),
        _ => at,
    };
    Written { end, finest }
}

// Puts the text of a date-time section's items, whose words these are, and tells the finest unit that they show.
fn put_dated_items(room: &mut [u16], items: &[u16], m: &Moment) -> Written
    requires { HasText (TextOf (DatedIs m.now (any dated_entry (entries_in items.now)))) (entries_in items.now) }
    ensures within { result.end ≤ 260096 }
    ensures put { (us : List ℕ) → TextOf (DatedIs m.now (any dated_entry (entries_in items.now))) (entries_in items.now) us
        → Put room.old 0 us result.end room.new }
    ensures finest { result.finest ≡ finest_span (items_in items.now) }
    ensures some { 0 < result.finest }
{
    let mut written = Written {
        end: 0,
        finest: 86400000,
    };
    for pair in items.chunks_exact(2) {
        written = put_dated_item(room, written.end, pair[0], pair[1], m, written.finest);
    }
    written
}

// Shows a date-time section: the moment is that of an instant with this millisecond. It is exact where the millisecond is a multiple
// of the finest unit shown.
pub fn show_dated_section(
    room: &mut [u16],
    size: usize,
    section: TableSection,
    m: &Moment,
    ms: Millisecond,
) -> Result<Shown, Refusal>
    requires { (kind_of (section_of section) ≡ date_kind) × DatedKnown m.now (any dated_entry (entries_of (section_of section).items)) }
    ensures { (c : Context) → MomentIs m.now (any dated_entry (entries_of (section_of section.entry).items)) c
        → c.integer_places ≡ integer_places (section_of section.entry).items
        → Shows (section_reading size (section_of section.entry) section.entry.place false (instant_exactly (section_of section.entry) ms) c)
        room.old result room.new }
{
    let colour = section.head().colour;
    let items = section.items();
    let roomy = is_roomy(size, items.len(), false);
    let place = section.place;
    show_whole(room, size, roomy, move |room| {
        let written = put_dated_items(room, items, m);
        Shown {
            length: written.end as u32,
            colour,
            section: place,
            exact: ms.0 % written.finest == 0,
        }
    })
}
