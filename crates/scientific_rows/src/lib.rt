// The items of a scientific section: those before its E and those behind it, each by the walk over a number section's.
#![tactic(auto)]

ghost use Rattle.std.specs.Prelude.{◌≡◌, ◌&&◌, ◌∷◌, ◌++◌, ℕ, ◌*◌, ◌/◌, ◌<◌, T, length, get_or};
ghost use Rattle.values.specs.Ranges.{between};
ghost use Rattle.tables.specs.Words.{entries_in};
ghost use Rattle.tables.specs.Encode.{entry};
ghost use Rattle.scans.specs.Scans.{has_tag};
ghost use Rattle.scientific_rows.specs.ScientificRows.{ScientificTold, MantissaTold, exponent_items};

use number_rows::number_row;
use scans::{find_tag, has_tag};
use tables::tags;

// How many decimal places the items of a scientific section have.
#[derive(Clone, Copy)]
pub struct ScientificRow {
    pub decimals: u16,
}

// The items before the E: an integer place, and no percent.
fn mantissa_row(words: &[u16]) -> Option<ScientificRow>
    ensures { MantissaTold (entries_in words.now) result }
{
    let row = number_row(words)?;
    if (row.percents != 0) | (row.integers == 0) {
        return None;
    }
    Some(ScientificRow {
        decimals: row.decimals,
    })
}

// Those behind it: 1 to 3 places, and neither a percent, a point nor a place `?`.
fn is_exponent(words: &[u16]) -> bool
    ensures { result ≡ exponent_items (entries_in words.now) }
{
    let Some(row) = number_row(words) else {
        return false;
    };
    if (row.percents != 0) | (3 < row.integers) {
        return false;
    }
    if has_tag(words, tags::POINT) {
        return false;
    }
    !has_tag(words, tags::SPACE_PLACE)
}

fn are_filled(mantissa: &[u16], exponent: &[u16]) -> bool
    ensures { result ≡ (has_tag (entries_in mantissa.now) 3 && has_tag (entries_in exponent.now) 3) }
{
    has_tag(mantissa, tags::FILL) && has_tag(exponent, tags::FILL)
}

// The items before and behind an E with this argument. One fill stands in both.
fn parts_row(mantissa: &[u16], a: u16, exponent: &[u16]) -> Option<ScientificRow>
    ensures { (t : ℕ) → T (between 22 23 t) → ScientificTold (entries_in mantissa.now ++ (entry t a ∷ entries_in exponent.now)) result }
{
    if a != 0 {
        return None;
    }
    if !is_exponent(exponent) {
        return None;
    }
    if are_filled(mantissa, exponent) {
        return None;
    }
    mantissa_row(mantissa)
}

// The items before and behind the one at this place, which is an E.
fn row_at(words: &[u16], at: usize) -> Option<ScientificRow>
    requires { (at < length words.now / 2) × T (between 22 23 (get_or words.now (2 * at) 0)) }
    ensures { ScientificTold (entries_in words.now) result }
{
    let i = 2 * at;
    let j = i + 1;
    let from = i + 2;
    let a = words[j];
    parts_row(&words[..i], a, &words[from..])
}

// What the items of a scientific section within its limits tell, whose words these are.
pub fn scientific_row(words: &[u16]) -> Option<ScientificRow>
    ensures { ScientificTold (entries_in words.now) result }
{
    let n = words.len() / 2;
    let plus = find_tag(words, tags::EXPONENT_PLUS);
    if plus < n {
        return row_at(words, plus);
    }
    let minus = find_tag(words, tags::EXPONENT_MINUS);
    if minus < n {
        return row_at(words, minus);
    }
    None
}
