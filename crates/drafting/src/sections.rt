// The sections of a code, drafted one behind the other.
ghost use Rattle.std.specs.Prelude.{◌≤◌, ◌≡◌, length};
ghost use Rattle.formats.specs.Accept.{parts_in};
ghost use Rattle.drafting.specs.Draft.{AllDrafted, Lexes};

use super::Draft;
use super::drafts::draft_section;
use super::parts::Part;
use bodies::sections::section_end;
use marks::Mark;

// Drafts the n sections of a code whose tokens these are, into a room of four drafts, and puts the words of their items.
pub fn draft_all(
    code: &[u16],
    tokens: &[Mark],
    n: usize,
    items: &mut [u16],
    drafts: &mut [Draft],
) -> usize
    requires code_len_bound { (length code.now ≤ 254) × (length tokens.now ≤ 254) × (length items.old ≡ 508) × (length drafts.old ≡ 4) × (n ≤ 4) }
    requires lexes { Lexes code.now tokens.now n }
    ensures { AllDrafted (parts_in code.now) items.old result items.new drafts.new }
{
    let mut first: usize = 0;
    let mut at: usize = 0;
    for k in 0..n {
        let rest = &tokens[first..];
        let size = section_end(rest);
        let part = Part {
            code,
            marks: &rest[..size],
        };
        let draft = draft_section(part, items, at);
        drafts[k] = draft;
        at += 2 * usize::from(draft.body.items);
        first += size + 1;
    }
    at
}
