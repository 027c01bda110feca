// Drafts the sections of a code: what the tests and the heads ask of each, and the words of its items.
#![tactic(auto)]

mod drafts;
mod parts;
mod places;
pub mod sections;

ghost use Rattle.std.specs.Prelude.{◌≡◌};
ghost use Rattle.drafting.specs.Draft.{has_condition_by};

// The body of a section: whether it fits its kind and is within the limits; its head's words that its tokens and items tell.
#[derive(Clone, Copy)]
pub struct Body {
    pub fits: bool,
    pub within: bool,
    pub kind: u16,
    pub shift: u16,
    pub grouped: bool,
    pub twelve: bool,
    pub decimals: u16,
    pub items: u16,
}

// A section: its colour or 0, its condition as its head has it, whether it is within the limits, and its body.
#[derive(Clone, Copy)]
pub struct Draft {
    pub colour: u16,
    pub operator: u16,
    pub negative: bool,
    pub whole_low: u16,
    pub whole_high: u16,
    pub millionths_low: u16,
    pub millionths_high: u16,
    pub within: bool,
    pub body: Body,
}

// What a room for drafts is filled with: a section of nothing, which fits and is within the limits. (Were all its words 0, a room that
// holds it would be cleared in one piece with what stands beside it, which takes 2,000 instructions more.)
pub const EMPTY: Draft = Draft {
    colour: 0,
    operator: 0,
    negative: false,
    whole_low: 0,
    whole_high: 0,
    millionths_low: 0,
    millionths_high: 0,
    within: true,
    body: Body {
        fits: true,
        within: true,
        kind: 0,
        shift: 0,
        grouped: false,
        twelve: false,
        decimals: 0,
        items: 0,
    },
};

pub fn has_condition(d: Draft) -> bool
    ensures { result ≡ has_condition_by d }
{
    d.operator != 0
}
