// The powers of a fraction's places, written anew over the words of its items: integer places, numerator and denominator each run
// down to power 0, where the words have those of one run before the solidus.
#![tactic(auto)]

ghost use Rattle.std.specs.Prelude.{◌≡◌, true, cond, List, [], suc, ◌+◌, ◌-◌, ◌≤◌, ◌<◌, length, get_or, set};
ghost use Rattle.values.specs.Ranges.{between};
ghost use Rattle.lists.specs.Lists.{any};
ghost use Rattle.formats.specs.Items.{Item, is_solidus, integer_places, whole_items, main_items};
ghost use Rattle.tables.specs.Words.{entries_words};
ghost use Rattle.tables.specs.Encode.{run_entries, entries_of};
ghost use Rattle.numbering.specs.Number.{integers_in, numbered_from, FrontNumbered};

use scans::cut_start;
use table_words::runs::run_start;
use tables::tags;

// How many integer places and how many numerator places there are.
#[derive(Clone, Copy)]
pub struct Numbered {
    pub wholes: u16,
    pub numerators: u16,
}

fn is_place(tag: u16) -> bool
    ensures { result ≡ between 4 6 tag }
{
    (tags::ZERO_PLACE..=tags::SPACE_PLACE).contains(&tag)
}

// How many places stand before the first point among item words.
fn integers_in(words: &[u16]) -> u16
    requires { length words.now ≤ 508 }
    ensures { (result ≡ integers_in words.now) × (result ≤ 254) }
{
    let mut places: u16 = 0;
    for item in words.chunks_exact(2) {
        let tag = item[0];
        if tag == tags::POINT {
            return places;
        }
        places += u16::from(is_place(tag));
    }
    places
}

// Writes the power of the item at the place i, where it is a place; returns the digit of the next place.
fn number_item(words: &mut [u16], i: usize, digit: u16) -> u16
    requires { (length words.old ≤ 508) × (i + 1 < length words.old) × (digit ≤ 268) }
    ensures after { (result ≡ cond (between 4 6 (get_or words.old i 0)) (digit - 1) digit) × (result ≤ 268) }
    ensures word { words.new ≡ cond (between 4 6 (get_or words.old i 0)) (set words.old (i + 1) (suc digit)) words.old }
{
    if is_place(words[i]) {
        words[i + 1] = digit + 1;
        return digit.saturating_sub(1);
    }
    digit
}

// Writes the powers of places anew: they run down from the first digit, told by its power and 15.
fn number_run(words: &mut [u16], first: u16)
    requires { (length words.old ≤ 508) × (first ≤ 268) }
    ensures { words.new ≡ numbered_from first words.old }
{
    let mut digit = first;
    for k in 0..words.len() / 2 {
        digit = number_item(words, 2 * k, digit);
    }
}

// Writes the powers of the places before a solidus: the run of places at their end is the numerator.
fn number_front(words: &mut [u16]) -> Numbered
    requires { length words.old ≤ 508 }
    ensures { FrontNumbered words.old result words.new }
{
    let start = run_start(words);
    let wholes = integers_in(&words[..start]);
    let numerators = ((words.len() - start) / 2) as u16;
    number_run(&mut words[..start], 14 + wholes);
    number_run(&mut words[start..], 14 + numerators);
    Numbered { wholes, numerators }
}

// Writes the powers of a fraction's places over the words of its items.
pub fn number_fraction(words: &mut [u16]) -> Numbered
    requires { length words.old ≤ 508 }
    ensures { (is : List Item) → any is_solidus is ≡ true → words.old ≡ entries_words (run_entries is) []
        → (words.new ≡ entries_words (entries_of is) []) × (result.wholes ≡ integer_places (whole_items is)) × (result.numerators ≡ integer_places (main_items is)) }
{
    let cut = cut_start(words);
    number_front(&mut words[..cut])
}
