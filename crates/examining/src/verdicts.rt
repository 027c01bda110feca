// The tests on the drafts of a code's sections.
ghost use Rattle.std.specs.Prelude.{◌≡◌, ◌≤◌, length};
ghost use Rattle.lists.specs.Lists.{first_failing};
ghost use Rattle.tables.specs.Standing.{head_stands};
ghost use Rattle.drafting.specs.Draft.{has_condition_by};
ghost use Rattle.examining.specs.Examine.{found, fits_by, stands_by, within_by, verdict_of, drafts_verdict};

use super::refused;
use answers::{Refusal, Refused};
use drafting::{Draft, has_condition};
use tables::kinds;

// Section i of n may stand where it does.
fn stands(d: Draft, n: usize, i: usize) -> bool
    requires { i ≤ 4 }
    ensures { result ≡ head_stands n i d.body.kind d.colour (has_condition_by d) }
{
    let text = d.body.kind == kinds::TEXT;
    let general = d.body.kind == kinds::GENERAL;
    let literal = d.body.kind == kinds::LITERAL;
    let has = has_condition(d);
    let fourth = i == 3;
    (!text | (i + 1 == n))
        & (!((n == 1) & has) | general)
        & (!has | (i < 2))
        & (!text | !has)
        & (!fourth | ((text | general) | literal))
        & (!fourth | ((d.colour == 0) & !has))
}

// The first section that fits no kind.
fn first_unfit(drafts: &[Draft]) -> Option<usize>
    ensures { found result ≡ first_failing fits_by 0 drafts.now }
{
    drafts.iter().position(|d| !d.body.fits)
}

// The first section that stands where it may not.
fn first_misplaced(drafts: &[Draft]) -> Option<usize>
    requires { length drafts.now ≤ 4 }
    ensures { found result ≡ first_failing (stands_by (length drafts.now)) 0 drafts.now }
{
    for (i, d) in drafts.iter().enumerate() {
        if !stands(*d, drafts.len(), i) {
            return Some(i);
        }
    }
    None
}

// The first section beyond a limit.
fn first_beyond(drafts: &[Draft]) -> Option<usize>
    ensures { found result ≡ first_failing within_by 0 drafts.now }
{
    drafts.iter().position(|d| !d.within)
}

// The tests 4, 5 and 6 over the drafts of all sections.
#[tactic(auto, using(crate::proofs::Testing::found_within), unfolding(crate::specs::Examine::verdict_of, crate::specs::Examine::drafts_verdict, crate::specs::Examine::found, formats::specs::Accept::or_else, formats::specs::Accept::section_verdict))]
pub fn judge(drafts: &[Draft]) -> Result<(), Refused>
    requires { length drafts.now ≤ 4 }
    ensures { verdict_of result ≡ drafts_verdict drafts.now }
{
    if let Some(unfit) = first_unfit(drafts) {
        return Err(refused(Refusal::Kind, unfit));
    }
    if let Some(misplaced) = first_misplaced(drafts) {
        return Err(refused(Refusal::Standing, misplaced));
    }
    if let Some(beyond) = first_beyond(drafts) {
        return Err(refused(Refusal::Limit, beyond));
    }
    Ok(())
}
