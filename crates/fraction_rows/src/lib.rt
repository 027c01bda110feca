// The items of a fraction: those before its numerator, the numerator's, and those behind its solidus.
#![tactic(auto)]

ghost use Rattle.std.specs.Prelude.{◌≡◌, ◌||◌, ◌∷◌, ◌++◌, ◌*◌, ◌/◌, ◌≤◌, ◌<◌, length, get_or};
ghost use Rattle.formats.specs.Items.{literal_follows};
ghost use Rattle.tables.specs.Words.{entries_in};
ghost use Rattle.tables.specs.Encode.{entry};
ghost use Rattle.tables.specs.Decode.{items_at};
ghost use Rattle.fraction_rows.specs.FractionRows.{fraction_items, whole_fits, fixed_fits, run_fits, parts_fit};

use bare_rows::bare_fits;
use number_rows::number_row;
use scans::{find_tag, has_tag};
use table_words::runs::{is_place, run_end, run_start};
use tables::{kinds, tags};

// A literal stands behind the last place: it is met first, from the end.
fn literal_follows(words: &[u16]) -> bool
    ensures { result ≡ literal_follows (items_at (entries_in words.now)) }
{
    for k in (0..words.len() / 2).rev() {
        let tag = words[2 * k];
        if tag == tags::LITERAL {
            return true;
        }
        if is_place(tag) {
            return false;
        }
    }
    true
}

// The items before the numerator.
fn is_whole(words: &[u16]) -> bool
    ensures { result ≡ whole_fits (entries_in words.now) }
{
    if bare_fits(words, kinds::LITERAL) {
        return true;
    }
    let Some(row) = number_row(words) else {
        return false;
    };
    if (row.percents != 0) | has_tag(words, tags::POINT) {
        return false;
    }
    literal_follows(words)
}

// Behind the solidus: 1 to 3 places that stand together.
fn is_run(words: &[u16]) -> bool
    ensures { result ≡ run_fits (entries_in words.now) }
{
    let Some(row) = number_row(words) else {
        return false;
    };
    if (row.percents != 0) | (3 < row.integers) {
        return false;
    }
    if has_tag(words, tags::POINT) {
        return false;
    }
    run_end(words) / 2 == row.integers as usize
}

// Behind the solidus: a fixed number, or such places.
fn is_denominator(words: &[u16]) -> bool
    ensures { result ≡ (fixed_fits (entries_in words.now) || run_fits (entries_in words.now)) }
{
    match words {
        [tags::FIXED, a, rest @ ..] => (1..=999).contains(a) && bare_fits(rest, kinds::LITERAL),
        _ => is_run(words),
    }
}

// One fill stands in all parts.
fn parts_fit(whole: &[u16], numerator: &[u16], a: u16, denominator: &[u16]) -> bool
    ensures { result ≡ parts_fit (entries_in whole.now) (entries_in numerator.now) a (entries_in denominator.now) }
{
    a == 0
        && number_row(numerator).is_some()
        && is_whole(whole)
        && is_denominator(denominator)
        && !(has_tag(whole, tags::FILL) && has_tag(denominator, tags::FILL))
}

// The items before and behind a solidus with this argument.
fn parts_row(front: &[u16], a: u16, denominator: &[u16]) -> bool
    ensures { result ≡ fraction_items (entries_in front.now ++ (entry 24 a ∷ entries_in denominator.now)) }
{
    let start = run_start(front);
    parts_fit(&front[..start], &front[start..], a, denominator)
}

// The items before and behind the one at this place, which is a solidus.
fn row_at(words: &[u16], at: usize) -> bool
    requires { (at < length words.now / 2) × (get_or words.now (2 * at) 0 ≡ 24) }
    ensures { result ≡ fraction_items (entries_in words.now) }
{
    let i = 2 * at;
    let j = i + 1;
    let from = i + 2;
    let a = words[j];
    parts_row(&words[..i], a, &words[from..])
}

// Whether these are the words of a fraction's items, within its limits.
pub fn fraction_row(words: &[u16]) -> bool
    ensures { result ≡ fraction_items (entries_in words.now) }
{
    let n = words.len() / 2;
    let at = find_tag(words, tags::SOLIDUS);
    if at < n {
        return row_at(words, at);
    }
    false
}
