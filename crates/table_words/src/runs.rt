// The runs of places at the end and at the start of item words. (By the items' numbers: chains over `chunks_exact(2)`, and over the numbers, proved
// too, and took up to 5 in 100 more instructions to show a fraction.)
ghost use Rattle.std.specs.Prelude.{◌≡◌};
ghost use Rattle.values.specs.Ranges.{between};
ghost use Rattle.formats.specs.Items.{end_places, before_end, start_places, behind_start};
ghost use Rattle.table_words.specs.Runs.{items_in, CutAt};

use tables::tags;

// Whether an item with this tag is a place.
pub fn is_place(tag: u16) -> bool
    ensures { result ≡ between 4 6 tag }
{
    (tags::ZERO_PLACE..=tags::SPACE_PLACE).contains(&tag)
}

// Where the run of places at the end of item words begins.
pub fn run_start(items: &[u16]) -> usize
    ensures { CutAt items.now result (before_end (items_in items.now)) (end_places (items_in items.now)) }
{
    for k in (0..items.len() / 2).rev() {
        if !is_place(items[2 * k]) {
            return 2 * k + 2;
        }
    }
    0
}

// Where the run of places at their start ends.
pub fn run_end(items: &[u16]) -> usize
    ensures { CutAt items.now result (start_places (items_in items.now)) (behind_start (items_in items.now)) }
{
    let n = items.len() / 2;
    for k in 0..n {
        if !is_place(items[2 * k]) {
            return 2 * k;
        }
    }
    2 * n
}
