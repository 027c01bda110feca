// Where a section ends, and what stands before its body.
ghost use Rattle.std.specs.Prelude.{◌≡◌, ◌==◌, ◌≤◌, length, position};
ghost use Rattle.bodies.specs.Sections.{SectionEnd, AfterColour, HeadingOf};

use marks::Mark;
use marks::forms::{COLOUR, CONDITION, SEMICOLON};

// The place of the first semicolon, if there is one.
fn first_semicolon(tokens: &[Mark]) -> Option<usize>
    ensures { result ≡ position (λ m. m.form == 11) tokens.now }
{
    tokens.iter().position(|mark| mark.form == SEMICOLON)
}

// How many tokens stand before the first semicolon.
pub fn section_end(tokens: &[Mark]) -> usize
    ensures { SectionEnd tokens.now result }
{
    first_semicolon(tokens).unwrap_or(tokens.len())
}

// What stands before a section's body: a colour or 0, its condition, and how many tokens these are.
#[derive(Clone, Copy)]
pub struct Heading {
    pub colour: u16,
    pub condition: Option<Mark>,
    pub tokens: usize,
}

// The heading of a section whose colour and tokens passed are known: with the condition that stands there, if one does.
fn after_colour(tokens: &[Mark], colour: u16, passed: usize) -> Heading
    requires { passed ≤ length tokens.now }
    ensures { AfterColour tokens.now colour passed result }
{
    match tokens.get(passed) {
        Some(mark) if mark.form == CONDITION => Heading {
            colour,
            condition: Some(*mark),
            tokens: passed + 1,
        },
        _ => Heading {
            colour,
            condition: None,
            tokens: passed,
        },
    }
}

// The heading of a section's tokens.
pub fn heading_of(tokens: &[Mark]) -> Heading
    ensures { HeadingOf tokens.now result }
{
    match tokens.first() {
        Some(mark) if mark.form == COLOUR => after_colour(tokens, mark.argument, 1),
        _ => after_colour(tokens, 0, 0),
    }
}
