// The words of a table: how many sections there are, their heads and their items.
ghost use Rattle.std.specs.Prelude.{◌≡◌, [], ◌≤◌, ◌<◌, ◌^◌, length};
ghost use Rattle.formats.specs.Minus.{exception_a};
ghost use Rattle.tables.specs.Words.{head_words};
ghost use Rattle.tables.specs.Encode.{flags_word};
ghost use Rattle.writing.specs.Put.{Put};
ghost use Rattle.preparing.specs.Table.{counted_by, first_has_by, head_by, heads_by, table_by};

use drafting::{Draft, has_condition};
use tables::{flags, kinds};
use writing::{put_unit, put_units};

// A section has no minus by exception (a).
fn no_minus(counted: usize, i: usize, own: bool, first: bool) -> bool
    ensures { result ≡ exception_a counted i own first }
{
    (i == 1) & !own & ((counted == 3) | ((counted == 2) & !first))
}

fn flags_word(grouped: bool, no_minus: bool, twelve: bool) -> u16
    ensures { result ≡ flags_word grouped no_minus twelve }
{
    flags::GROUPING * u16::from(grouped)
        + flags::NO_MINUS * u16::from(no_minus)
        + flags::TWELVE_HOUR * u16::from(twelve)
}

// How many sections are neither text nor fourth: document 01's N.
fn counted_of(drafts: &[Draft]) -> usize
    ensures { result ≡ counted_by 0 drafts.now }
{
    let mut counted: usize = 0;
    for (i, d) in drafts.iter().enumerate() {
        if (d.body.kind != kinds::TEXT) & (i != 3) {
            counted += 1;
        }
    }
    counted
}

// Puts the head of section i, where the first section has a condition or none.
fn put_head(room: &mut [u16], at: usize, d: Draft, counted: usize, i: usize, first: bool) -> usize
    requires { at < 2 ^ 61 }
    ensures { Put room.old at (head_words (head_by counted i first d) []) result room.new }
{
    let body = d.body;
    let minus = no_minus(counted, i, has_condition(d), first);
    let words = [
        body.kind,
        d.colour,
        d.operator,
        u16::from(d.negative),
        d.whole_low,
        d.whole_high,
        d.millionths_low,
        d.millionths_high,
        body.shift,
        flags_word(body.grouped, minus, body.twelve),
        body.decimals,
        body.items,
    ];
    put_units(room, at, &words)
}

// Puts the heads of the sections.
fn put_heads(room: &mut [u16], at: usize, drafts: &[Draft], counted: usize, first: bool) -> usize
    requires { (at < 2 ^ 60) × (length drafts.now ≤ 4) }
    ensures { Put room.old at (heads_by counted first 0 drafts.now) result room.new }
{
    let mut o = at;
    for (i, d) in drafts.iter().enumerate() {
        o = put_head(room, o, *d, counted, i, first);
    }
    o
}

// Whether the first section has a condition.
#[tactic(auto, unfolding(crate::specs::Table::first_has_by))]
fn first_has(drafts: &[Draft]) -> bool
    ensures { result ≡ first_has_by drafts.now }
{
    match drafts {
        [first, ..] => has_condition(*first),
        [] => false,
    }
}

// Puts the table of the sections whose items have these words.
pub fn put_table(table: &mut [u16], drafts: &[Draft], items: &[u16]) -> usize
    requires { (length drafts.now ≤ 4) × (length items.now ≤ 508) }
    ensures { Put table.old 0 (table_by drafts.now items.now) result table.new }
{
    let first = first_has(drafts);
    let counted = counted_of(drafts);
    let o = put_unit(table, 0, drafts.len() as u16);
    let p = put_heads(table, o, drafts, counted, first);
    put_units(table, p, items)
}
