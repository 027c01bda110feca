// Why a value is shown as it is: what is named as the reason, with a number for each case.
#![tactic(auto)]

ghost use Rattle.std.specs.Prelude.{◌≡◌};
ghost use Rattle.grounds.specs.Numbers.{choice_number, tried_number, minus_number};

// How the section was chosen: by its own condition; by a fallback, where one, two, three or no sections count; or for a text.
#[derive(Clone, Copy, Debug, PartialEq, Eq)]
pub enum ChosenBy {
    OwnCondition,
    AllValues,
    FirstOfTwo,
    RestOfTwo,
    AboveZero,
    BelowZero,
    RestOfThree,
    General,
    TextSection,
    NoSection,
}

// What is said of a section before the chosen one: not tried, or whether its own condition or its fallback was false.
#[derive(Clone, Copy, Debug, PartialEq, Eq)]
pub enum Tried {
    NotTried,
    OwnFalse,
    FallbackFalse,
}

// Whether a minus was added, or what held it back.
#[derive(Clone, Copy, Debug, PartialEq, Eq)]
pub enum Minus {
    Added,
    Text,
    NotBelow,
    NoItem,
    ForNegatives,
    Nought,
}

// The reason: section and choice, the two sections that can have been tried earlier, the minus, and how many decimals were cut.
#[derive(Clone, Copy, Debug, PartialEq, Eq)]
pub struct Grounds {
    pub section: u16,
    pub choice: ChosenBy,
    pub first: Tried,
    pub second: Tried,
    pub minus: Minus,
    pub cut: u16,
}

// The number of a choice.
pub fn choice_number(choice: ChosenBy) -> u16
    ensures { result ≡ choice_number choice }
{
    match choice {
        ChosenBy::OwnCondition => 0,
        ChosenBy::AllValues => 1,
        ChosenBy::FirstOfTwo => 2,
        ChosenBy::RestOfTwo => 3,
        ChosenBy::AboveZero => 4,
        ChosenBy::BelowZero => 5,
        ChosenBy::RestOfThree => 6,
        ChosenBy::General => 7,
        ChosenBy::TextSection => 8,
        ChosenBy::NoSection => 9,
    }
}

// The number of what is said of a section tried earlier.
pub fn tried_number(tried: Tried) -> u16
    ensures { result ≡ tried_number tried }
{
    match tried {
        Tried::NotTried => 0,
        Tried::OwnFalse => 1,
        Tried::FallbackFalse => 2,
    }
}

// The number of what is said of the minus.
pub fn minus_number(minus: Minus) -> u16
    ensures { result ≡ minus_number minus }
{
    match minus {
        Minus::Added => 0,
        Minus::Text => 1,
        Minus::NotBelow => 2,
        Minus::NoItem => 3,
        Minus::ForNegatives => 4,
        Minus::Nought => 5,
    }
}
