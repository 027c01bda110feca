// What a call answers: the refusals of the answer list with their numbers, and the results of preparing and of showing.
#![tactic(auto)]

ghost use Rattle.std.specs.Prelude.{◌≡◌};
ghost use Rattle.answers.specs.Number.{number_of, done_number};

// The answer list behind 0, in its order. `number_of` in specs/ gives each its number.
#[derive(Clone, Copy, Debug, PartialEq, Eq)]
pub enum Refusal {
    CodeLength,
    Token,
    SectionCount,
    Kind,
    Standing,
    Limit,
    TableRoom,
    Table,
    Range,
    NoSection,
    Sort,
    General,
    TextRoom,
    Line,
    Ended,
    Row,
}

// What preparing returns where it refuses: why, and the place in the code.
#[derive(Clone, Copy, Debug, PartialEq, Eq)]
pub struct Refused {
    pub refusal: Refusal,
    pub place: u32,
}

// What showing returns where a text of this length is shown, and whether what is shown is exact.
#[derive(Clone, Copy, Debug, PartialEq, Eq)]
pub struct Shown {
    pub length: u32,
    pub colour: u16,
    pub section: u16,
    pub exact: bool,
}

// The number of a call that is done.
pub const DONE: u16 = 0;

pub fn done() -> u16
    ensures { result ≡ done_number }
{
    DONE
}

// The number of a refusal in the answer list.
pub fn number(refusal: Refusal) -> u16
    ensures { result ≡ number_of refusal }
{
    match refusal {
        Refusal::CodeLength => 1,
        Refusal::Token => 2,
        Refusal::SectionCount => 3,
        Refusal::Kind => 4,
        Refusal::Standing => 5,
        Refusal::Limit => 6,
        Refusal::TableRoom => 7,
        Refusal::Table => 8,
        Refusal::Range => 9,
        Refusal::NoSection => 10,
        Refusal::Sort => 11,
        Refusal::General => 12,
        Refusal::TextRoom => 13,
        Refusal::Line => 14,
        Refusal::Ended => 15,
        Refusal::Row => 16,
    }
}
