// The items of a number section, in a walk of its own: it keeps little, and ends at the first fault.
#![tactic(auto)]

ghost use Rattle.std.specs.Prelude.{◌≡◌};
ghost use Rattle.tables.specs.Words.{entries_in};
ghost use Rattle.number_rows.specs.NumberRows.{NumberTold, place_taken, point_taken, percent_taken, fill_taken, number_after};

use tables::tags;

// How many integer places, decimal places and percents the items of a number section have.
#[derive(Clone, Copy)]
pub struct NumberRow {
    pub integers: u16,
    pub decimals: u16,
    pub percents: u16,
}

// The argument of the first decimal place, behind the last integer place.
const DECIMAL_POWER: u16 = 15;

const GREATEST_POWER: u16 = 35;

const MOST_PERCENTS: u16 = 5;

// What is kept from one item to the next, where none was at fault.
#[derive(Clone, Copy)]
struct NumberWalk {
    // a point was met
    point: bool,
    // the argument of the first place; that of the first decimal place where a point was met first; 0 where neither was
    first: u16,
    // the argument that the next place must have; 0 where no place may follow, or any
    next: u16,
    percents: u16,
    fills: u16,
}

// The first place may have any power; each other place has the power below.
#[tactic(auto, using(std::proofs::lemmas::Bool::Decides::nat_tests), unfolding(crate::specs::NumberRows::place_taken))]
fn place(s: NumberWalk, a: u16) -> Option<NumberWalk>
    ensures { result ≡ place_taken s a }
{
    if a == 0 {
        return None;
    }
    if s.next == a {
        return Some(NumberWalk { next: a - 1, ..s });
    }
    if (s.first != 0) | (GREATEST_POWER < a) {
        return None;
    }
    Some(NumberWalk {
        point: false,
        first: a,
        next: a - 1,
        ..s
    })
}

// The one point stands behind the place of power 0, or before all places.
#[tactic(auto, using(std::proofs::lemmas::Bool::Decides::nat_tests), unfolding(crate::specs::NumberRows::point_taken))]
fn point(s: NumberWalk, a: u16) -> Option<NumberWalk>
    ensures { result ≡ point_taken s a }
{
    if s.point | (a != 0) {
        return None;
    }
    if s.first == 0 {
        return Some(NumberWalk {
            point: true,
            first: DECIMAL_POWER,
            next: DECIMAL_POWER,
            ..s
        });
    }
    if s.next != DECIMAL_POWER {
        return None;
    }
    Some(NumberWalk { point: true, ..s })
}

#[tactic(auto, using(std::proofs::lemmas::Bool::Decides::nat_tests), unfolding(crate::specs::NumberRows::percent_taken))]
fn percent(s: NumberWalk, a: u16) -> Option<NumberWalk>
    ensures { result ≡ percent_taken s a }
{
    if (a != 0) | (MOST_PERCENTS <= s.percents) {
        return None;
    }
    Some(NumberWalk {
        percents: s.percents + 1,
        ..s
    })
}

#[tactic(auto, using(std::proofs::lemmas::Bool::Decides::nat_tests), unfolding(crate::specs::NumberRows::fill_taken))]
fn fill(s: NumberWalk) -> Option<NumberWalk>
    ensures { result ≡ fill_taken s }
{
    if s.fills != 0 {
        return None;
    }
    Some(NumberWalk { fills: 1, ..s })
}

// The walk by one item, with its tag and its argument. Places are most items, so they are told first. An item of another kind,
// and a tag of none, is refused.
#[tactic(auto, using(std::proofs::lemmas::Bool::Decides::nat_tests), unfolding(crate::specs::NumberRows::number_after))]
fn step(s: NumberWalk, tag: u16, a: u16) -> Option<NumberWalk>
    ensures { result ≡ number_after s tag a }
{
    if (tags::ZERO_PLACE..=tags::SPACE_PLACE).contains(&tag) {
        return place(s, a);
    }
    match tag {
        tags::LITERAL => Some(s),
        tags::BLANK => Some(s),
        tags::FILL => fill(s),
        tags::POINT => point(s, a),
        tags::PERCENT => percent(s, a),
        _ => None,
    }
}

// What the items of a number section within its limits tell, whose words these are. Its places are as many as the first power and
// the last one say.
pub fn number_row(words: &[u16]) -> Option<NumberRow>
    ensures { NumberTold (entries_in words.now) result }
{
    let mut s = NumberWalk {
        point: false,
        first: 0,
        next: 0,
        percents: 0,
        fills: 0,
    };
    for pair in words.chunks_exact(2) {
        s = step(s, pair[0], pair[1])?;
    }
    if s.first == s.next {
        return None;
    }
    if !s.point & (s.next != DECIMAL_POWER) {
        return None;
    }
    Some(NumberRow {
        integers: s.first - DECIMAL_POWER,
        decimals: DECIMAL_POWER - s.next,
        percents: s.percents,
    })
}
