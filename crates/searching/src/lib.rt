// Finds the last of 401 rising numbers that is not above a day, without seeing them: it names an entry and is told its number.
#![tactic(auto)]

ghost use Rattle.std.specs.Prelude.{◌≡◌, ◌≤◌};
ghost use Rattle.searching.specs.Machine.{later_guess, guessed, first_asked, reading, between, answer, above, not_above, started, told_of};

// Behind this entry and in front of it there are few enough that eight turns tell them, once its neighbour is told too.
const BORDER: u32 = 144;

// Entries before `low` are not above the day, those behind `last` are; `asked` is the entry asked for, by the guess where it is the
// first.
#[derive(Clone, Copy)]
pub struct Search {
    day: u32,
    low: u32,
    last: u32,
    asked: u32,
    first: bool,
}

// The entry to be read next, with the search as it then is, or the answer.
#[derive(Clone, Copy)]
pub enum Turn {
    Read(u32, Search),
    Found(u32),
    Nothing,
}

// How many years have begun by a day from 2101 on: 2100 and 2200 have no 29 February.
fn later_guess(day: u32) -> u32
    requires { 73416 ≤ day }
    ensures { result ≡ later_guess day }
{
    if 146463 < day {
        401
    } else if day < 109940 {
        (4 * (day - 73416) + 3) / 1461 + 202
    } else {
        (4 * (day - 109940) + 3) / 1461 + 302
    }
}

// How many years from 1900 to 2300 have begun by a day, 1900 counted as a leap year: four years have 1,461 days. Any other list is
// searched from there too.
fn guess(day: u32) -> u32
    ensures { result ≡ guessed day }
{
    if day < 73416 {
        (4 * day + 1457) / 1461
    } else {
        later_guess(day)
    }
}

// The two entries at the border of the guess show whether it is right. The first is the one that leaves the fewer entries untold
// where it goes as guessed, so that eight turns are enough where the second does not.
fn first_asked(count: u32) -> u32
    ensures { result ≡ first_asked count }
{
    if BORDER < count { count - 1 } else { count }
}

// Asks for the entry that the search names.
fn reading(s: Search) -> Turn
    ensures { result ≡ reading s.day s.low s.last s.asked s.first }
{
    Turn::Read(s.asked, s)
}

// Asks for the entry in the middle of those that are not told yet.
fn between(s: Search) -> Turn
    requires { s.low ≤ s.last }
    ensures { result ≡ between s.day s.low s.last }
{
    let asked = s.low + (s.last - s.low) / 2;
    reading(Search {
        asked,
        first: false,
        ..s
    })
}

// The answer where the entries before `low` are those that are not above the day.
fn answer(low: u32) -> Turn
    ensures { result ≡ answer low }
{
    match low.checked_sub(1) {
        Some(k) => Turn::Found(k),
        None => Turn::Nothing,
    }
}

// The entry asked for is above the day.
fn above(s: Search) -> Turn
    ensures { result ≡ above s }
{
    if s.asked <= s.low {
        return answer(s.low);
    }
    let last = s.asked - 1;
    if s.first & (s.asked <= BORDER) {
        return reading(Search {
            last,
            asked: last,
            first: false,
            ..s
        });
    }
    between(Search { last, ..s })
}

// The entry asked for is not above the day.
fn not_above(s: Search) -> Turn
    ensures { result ≡ not_above s }
{
    if s.last <= s.asked {
        return Turn::Found(s.asked);
    }
    let low = s.asked + 1;
    if s.first & (BORDER <= s.asked) {
        return reading(Search {
            low,
            asked: low,
            first: false,
            ..s
        });
    }
    between(Search { low, ..s })
}

// Begins the search for a day.
pub fn start(day: u32) -> Turn
    ensures { result ≡ started day }
{
    reading(Search {
        day,
        low: 0,
        last: 400,
        asked: first_asked(guess(day)),
        first: true,
    })
}

// Goes on with the number of the entry asked for.
pub fn told(s: Search, number: u32) -> Turn
    ensures { result ≡ told_of s number }
{
    if s.day < number {
        above(s)
    } else {
        not_above(s)
    }
}
