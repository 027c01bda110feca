// What the tokens of a section say, read from a part of the token buffer: where the section ends, its heading, the facts of its body,
// its commas, the rules for its solidus; and what the units of a condition say.
#![tactic(auto)]

pub mod commas;
pub mod conditions;
pub mod facts;
pub mod fraction;
pub mod sections;
