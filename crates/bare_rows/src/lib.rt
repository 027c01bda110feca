// The items of a literal, General or text section: literals, blanks, one fill, and what makes the section.
#![tactic(auto)]

ghost use Rattle.std.specs.Prelude.{◌≡◌};
ghost use Rattle.tables.specs.Words.{entries_in};
ghost use Rattle.tables.specs.Encode.{entry};
ghost use Rattle.tallies.specs.Tally.{items_of};
ghost use Rattle.bare_rows.specs.BareRows.{own_tag, bare_entry, owns_fit};

use tables::{kinds, tags};

// The tag of the item that makes the section. A literal section has none of its own.
fn own_tag(kind: u16) -> u16
    ensures { result ≡ own_tag kind }
{
    match kind {
        kinds::GENERAL => tags::GENERAL,
        kinds::TEXT => tags::AT,
        _ => tags::LITERAL,
    }
}

#[tactic(auto, using(std::proofs::lemmas::Bool::Decides::nat_tests), unfolding(crate::specs::BareRows::bare_entry))]
fn is_bare(own: u16, tag: u16, a: u16) -> bool
    ensures { result ≡ bare_entry own (entry tag a) }
{
    if (tags::LITERAL..=tags::FILL).contains(&tag) {
        return true;
    }
    (tag == own) & (a == 0)
}

// General stands once, `@` at least once.
fn owns_fit(kind: u16, owns: usize) -> bool
    ensures { result ≡ owns_fit kind owns }
{
    match kind {
        kinds::LITERAL => true,
        kinds::GENERAL => owns == 1,
        kinds::TEXT => 0 < owns,
        _ => false,
    }
}

// Whether these are the words of such a section's items.
pub fn bare_fits(words: &[u16], kind: u16) -> bool
    ensures { (kind ≡ 2 → ⊥) → (kind ≡ 4 → ⊥) → (kind ≡ 5 → ⊥) → (kind ≡ 6 → ⊥) → result ≡ items_of kind (entries_in words.now) }
{
    let own = own_tag(kind);
    let mut fills: usize = 0;
    let mut owns: usize = 0;
    for pair in words.chunks_exact(2) {
        let tag = pair[0];
        if !is_bare(own, tag, pair[1]) {
            return false;
        }
        fills += usize::from(tag == tags::FILL);
        owns += usize::from(tag == own);
    }
    (fills <= 1) & owns_fit(kind, owns)
}
