// Items among a section's item words, by their tags: where one stands, where the items are cut, how many there are. (By the items' numbers:
// chains over `chunks_exact(2)`, and over the numbers, proved too, and took up to 5 in 100 more instructions to show a fraction.)
#![tactic(auto)]

ghost use Rattle.std.specs.Prelude.{◌≡◌, Bool, ℕ};
ghost use Rattle.values.specs.Ranges.{between};
ghost use Rattle.lists.specs.Lists.{count};
ghost use Rattle.formats.specs.Items.{Item, before_cut, from_cut};
ghost use Rattle.tables.specs.Words.{entries_in};
ghost use Rattle.tables.specs.Encode.{entry};
ghost use Rattle.tables.specs.Decode.{item_at};
ghost use Rattle.table_words.specs.Runs.{items_in, CutAt};
ghost use Rattle.scans.specs.Scans.{has_tag, FoundAt};

use tables::tags;

// The place of the first item with this tag; how many items there are where none has it.
pub fn find_tag(words: &[u16], tag: u16) -> usize
    ensures { FoundAt words.now tag result }
{
    let n = words.len() / 2;
    for k in 0..n {
        if words[2 * k] == tag {
            return k;
        }
    }
    n
}

pub fn has_tag(words: &[u16], tag: u16) -> bool
    ensures { result ≡ has_tag (entries_in words.now) tag }
{
    words.chunks_exact(2).any(|entry| entry[0] == tag)
}

// Where the words of the first E or solidus begin among item words; behind all items where there is none.
pub fn cut_start(items: &[u16]) -> usize
    ensures { CutAt items.now result (before_cut (items_in items.now)) (from_cut (items_in items.now)) }
{
    let n = items.len() / 2;
    for k in 0..n {
        if (tags::EXPONENT_PLUS..=tags::SOLIDUS).contains(&items[2 * k]) {
            return 2 * k;
        }
    }
    2 * n
}

// How many items there are among item words with a tag from `low` to `high`.
pub fn count_between(items: &[u16], low: u16, high: u16) -> usize
    ensures { (f : Item → Bool) → ((t a : ℕ) → f (item_at (entry t a)) ≡ between low high t) → result ≡ count f (items_in items.now) }
{
    let n = items.len() / 2;
    let mut met = 0;
    for k in 0..n {
        met += (low..=high).contains(&items[2 * k]) as usize;
    }
    met
}
