// One section of a code: what its tokens say of it, with the words of its items.
ghost use Rattle.std.specs.Prelude.{◌≡◌, true, ◌&&◌, List, ℕ, suc, ◌+◌, ◌*◌, ◌≤◌, T, length, take, drop};
ghost use Rattle.lists.specs.Lists.{every, is_some};
ghost use Rattle.formats.specs.Tokens.{Token, condition_inside};
ghost use Rattle.formats.specs.Items.{settled};
ghost use Rattle.formats.specs.Kinds.{parts_of, body_items, last_fill};
ghost use Rattle.marks.specs.declared.Mark.{Mark};
ghost use Rattle.marks.specs.Marks.{tokens_in};
ghost use Rattle.tables.specs.Encode.{run_entries};
ghost use Rattle.writing.specs.Put.{Put};
ghost use Rattle.bodies.specs.Bodies.{facts_of};
ghost use Rattle.bodies.specs.Fraction.{has_units};
ghost use Rattle.bodies.specs.Sections.{condition_marked};
ghost use Rattle.emitting.specs.Emit.{ToldOf};
ghost use Rattle.drafting.specs.Parts.{tokens_of};
ghost use Rattle.drafting.specs.Draft.{body_words, settled_words, ConditionAs, thousands_by, shift_told, commas_fit_by, body_by, bare_body, kept_by, Parted, BodyRead, Drafts, DraftOf, is_read};
ghost use Rattle.tallies.specs.Tally.{tally_of, Uncut, Cut, items_fit_told, within_told};

use super::parts::Part;
use super::places::told_of;
use super::{Body, Draft};
use bodies::commas::{Commas, commas_of};
use bodies::conditions::{Amount, Compared, condition_of};
use bodies::facts::{Facts, facts_of};
use bodies::fraction::fraction_fits;
use bodies::sections::{Heading, heading_of};
use emitting::{Told, put_items};
use marks::Mark;
use numbering::{Numbered, number_fraction};
use settling::settle;
use tables::kinds;
use tallies::{
    Tally, cut_decimals, cut_items_fit, cut_kind, decimals_word, fraction_within, items_fit, kind,
    tally_words, within,
};

// What no condition compares with, and a condition beyond the limits as its head never has it.
const NOTHING: Amount = Amount {
    negative: false,
    whole: 0,
    millionths: 0,
};

// The condition of a section with this heading, as its head has it: none is the operator 0.
fn heading_condition(code: &[u16], h: Heading) -> Compared
    requires { (length code.now ≤ 254) × ((m : Mark) → h.condition ≡ Some m → (m.form ≡ 24) × (is_some (condition_inside (take m.argument (drop (suc m.start) code.now))) ≡ true)) }
    ensures { ConditionAs (condition_marked code.now h.condition) result }
{
    match h.condition {
        Some(mark) => condition_of(code, mark),
        None => Compared {
            operator: 0,
            amount: Some(NOTHING),
        },
    }
}

// What the passes over a body gave: its facts, its commas, the tally of its items and how many these are.
#[derive(Clone, Copy)]
struct Read {
    facts: Facts,
    commas: Commas,
    tally: Tally,
    items: u16,
}

impl Read {
    // How many commas divide: only those of a number do.
    fn thousands(self) -> u16
        ensures { result ≡ thousands_by self.facts self.commas }
    {
        if self.facts.number {
            self.commas.thousands
        } else {
            0
        }
    }

    // The head's shift, of a section within the limits.
    fn shift(self) -> u16
        requires { Uncut self.tally }
        ensures { result ≡ shift_told self.tally (within_told self.tally (thousands_by self.facts self.commas)) (thousands_by self.facts self.commas) }
    {
        let thousands = self.thousands();
        if !within(self.tally, thousands) {
            return 0;
        }
        if kind(self.tally) != kinds::NUMBER {
            return 0;
        }
        15 + 2 * self.tally.percents - 3 * thousands
    }

    // A scientific section or a fraction has no comma, a date any; elsewhere none is misplaced.
    fn commas_fit(self) -> bool
        ensures { result ≡ commas_fit_by self.facts self.commas }
    {
        if self.facts.scientific | self.facts.fraction {
            return !self.facts.commas;
        }
        self.facts.date | !self.commas.misplaced
    }

    // Whether the body fits whose items do, or do not.
    fn fits(self, items: bool) -> bool
        ensures { result ≡ (self.facts.plain && commas_fit_by self.facts self.commas && items) }
    {
        self.facts.plain & self.commas_fit() & items
    }

    // The body, which has neither E nor solidus among its items.
    fn bare_body(self) -> Body
        requires { Uncut self.tally }
        ensures { result ≡ bare_body self.facts self.commas self.tally self.items }
    {
        Body {
            fits: self.fits(items_fit(self.tally)),
            within: within(self.tally, self.thousands()),
            kind: kind(self.tally),
            shift: self.shift(),
            grouped: self.facts.number & self.commas.grouped,
            twelve: self.tally.halves,
            decimals: decimals_word(self.tally),
            items: self.items,
        }
    }

    // The body, which has an E or a solidus among its items: whether the rules for a solidus are kept, and whether it is within the limits.
    fn cut_body(self, kept: bool, within: bool) -> Body
        requires { Cut self.tally }
        ensures { result ≡ body_by self.facts self.commas self.tally (kept && items_fit_told self.tally) within self.items }
    {
        Body {
            fits: self.fits(kept & cut_items_fit(self.tally)),
            within,
            kind: cut_kind(self.tally),
            shift: 0,
            grouped: self.facts.number & self.commas.grouped,
            twelve: self.tally.halves,
            decimals: cut_decimals(self.tally),
            items: self.items,
        }
    }
}

// Whether the rules for a solidus are kept.
fn solidus_kept(body: &[Mark], f: Facts, t: Tally) -> bool
    ensures { (code : List ℕ) → T (every has_units (tokens_in code body.now)) → f ≡ facts_of (tokens_in code body.now)
        → result ≡ kept_by (tokens_in code body.now) f t }
{
    if f.fraction {
        return fraction_fits(body);
    }
    t.solidi == 0
}

// How many places the integer part and the numerator of a fraction have; in any other body the integer places stand for the latter. The
// powers of a fraction's parts are written over the words of its items.
fn part_places(t: Tally, words: &mut [u16]) -> Numbered
    requires { length words.old ≤ 508 }
    ensures { (ts : List Token) → t ≡ tally_of (run_entries (settled (last_fill (body_items ts)))) → words.old ≡ settled_words ts → Parted ts result words.new }
{
    if t.solidi == 0 {
        return Numbered {
            wholes: 0,
            numerators: t.integers,
        };
    }
    number_fraction(words)
}

// Drafts a body with an E or a solidus among its items, which have these words.
fn draft_cut(body: &[Mark], read: Read, words: &mut [u16]) -> Body
    requires { (length words.old ≤ 508) × Cut read.tally }
    ensures { (code : List ℕ) → BodyRead (tokens_in code body.now) read → words.old ≡ settled_words (tokens_in code body.now)
        → Drafts (tokens_in code body.now) result × (words.new ≡ body_words (tokens_in code body.now)) }
{
    let places = part_places(read.tally, words);
    let within = fraction_within(
        read.tally,
        read.thousands(),
        places.wholes,
        places.numerators,
    );
    read.cut_body(solidus_kept(body, read.facts, read.tally), within)
}

// Puts the words of a body's items at `at`, all places being of one run, and settles the runs of m among them.
fn put_settled(body: Part, told: Told, items: &mut [u16], at: usize) -> usize
    requires room { (length items.old ≤ 508) × (at + length (settled_words (tokens_of body)) ≤ length items.old) }
    requires told { ToldOf (tokens_of body) told }
    ensures { Put items.old at (settled_words (tokens_of body.entry)) result items.new }
{
    let end = put_items(body.code, body.marks, told, items, at);
    settle(&mut items[at..end]);
    end
}

// Drafts a body, and puts the words of its items at `at`. (Most have neither E nor solidus, and pay for this test alone.)
fn draft_body(body: Part, items: &mut [u16], at: usize) -> Body
    requires room { (length items.old ≤ 508) × (at + length (body_words (tokens_of body)) ≤ length items.old) }
    requires units { T (every has_units (tokens_of body)) }
    ensures draft { Drafts (tokens_of body.entry) result }
    ensures put { Put items.old at (body_words (tokens_of body.entry)) (at + 2 * result.items) items.new }
{
    let marks = body.marks;
    let facts = facts_of(marks);
    let commas = commas_of(marks, facts);
    let end = put_settled(body, told_of(marks, facts), items, at);
    let tally = tally_words(&items[at..end]);
    let size = end - at;
    let read = Read {
        facts,
        commas,
        tally,
        items: (size / 2) as u16,
    };
    if (0 < tally.exponents) | (0 < tally.solidi) {
        return draft_cut(marks, read, &mut items[at..end]);
    }
    read.bare_body()
}

// Drafts the section of these tokens, and puts the words of its items at `at`.
pub fn draft_section(part: Part, items: &mut [u16], at: usize) -> Draft
    requires room { (length items.old ≤ 508) × (at + length (body_words (parts_of (tokens_of part)).body) ≤ length items.old) }
    requires read { T (every is_read (tokens_of part)) }
    ensures draft { DraftOf (parts_of (tokens_of part.entry)) result }
    ensures put { Put items.old at (body_words (parts_of (tokens_of part.entry)).body) (at + 2 * result.body.items) items.new }
{
    let h = heading_of(part.marks);
    let condition = heading_condition(part.code, h);
    let amount = condition.amount.unwrap_or(NOTHING);
    let body = Part {
        code: part.code,
        marks: &part.marks[h.tokens..],
    };
    let body = draft_body(body, items, at);
    Draft {
        colour: h.colour,
        operator: condition.operator,
        negative: amount.negative,
        whole_low: (amount.whole % 65536) as u16,
        whole_high: (amount.whole / 65536) as u16,
        millionths_low: (amount.millionths % 65536) as u16,
        millionths_high: (amount.millionths / 65536) as u16,
        within: condition.amount.is_some() & body.within,
        body,
    }
}
