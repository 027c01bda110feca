// Values: a day number, a millisecond of the day, a number, and all that showing is told.
#![tactic(auto)]

ghost use Rattle.std.specs.Prelude.{◌≡◌};
ghost use Rattle.values.specs.Ranges.{day_least, day_greatest, day_of, millisecond_least, millisecond_greatest, millisecond_of, within, made_answer, range_answer, IsDayOf, IsMillisecondOf, asked};

// "A day number and a millisecond of the day are two units": a type for each, so that no call takes one for the other.
// The field is open: a value out of range can be asked for, and is answered 9.
#[derive(Clone, Copy, Debug, PartialEq, Eq)]
pub struct Day(pub u32);

#[derive(Clone, Copy, Debug, PartialEq, Eq)]
pub struct Millisecond(pub u32);

// The number is not in the range of its unit.
#[derive(Clone, Copy, Debug, PartialEq, Eq)]
pub struct OutOfRange;

// The number, where it is from `least` to `greatest`.
fn within(least: u32, greatest: u32, n: u32) -> Result<u32, OutOfRange>
    ensures { result ≡ within least greatest n }
{
    if (least..=greatest).contains(&n) {
        Ok(n)
    } else {
        Err(OutOfRange)
    }
}

impl Day {
    pub const LEAST: u32 = 0;

    pub const GREATEST: u32 = 2958465;

    // The day with this number, where it is one.
    pub fn new(n: u32) -> Result<Day, OutOfRange>
        ensures made { result ≡ day_of n }
        ensures ends { (Day.LEAST ≡ day_least) × (Day.GREATEST ≡ day_greatest) }
        ensures answered { made_answer result ≡ range_answer day_least day_greatest n }
    {
        Ok(Day(within(Self::LEAST, Self::GREATEST, n)?))
    }
}

impl TryFrom<u32> for Day {
    type Error = OutOfRange;

    ghost try_from_gives = { IsDayOf };

    fn try_from(n: u32) -> Result<Day, OutOfRange> {
        Day::new(n)
    }
}

impl Millisecond {
    pub const LEAST: u32 = 0;

    pub const GREATEST: u32 = 86399999;

    // The millisecond of the day with this number, where it is one.
    pub fn new(n: u32) -> Result<Millisecond, OutOfRange>
        ensures made { result ≡ millisecond_of n }
        ensures ends { (Millisecond.LEAST ≡ millisecond_least) × (Millisecond.GREATEST ≡ millisecond_greatest) }
        ensures answered { made_answer result ≡ range_answer millisecond_least millisecond_greatest n }
    {
        Ok(Millisecond(within(Self::LEAST, Self::GREATEST, n)?))
    }
}

impl TryFrom<u32> for Millisecond {
    type Error = OutOfRange;

    ghost try_from_gives = { IsMillisecondOf };

    fn try_from(n: u32) -> Result<Millisecond, OutOfRange> {
        Millisecond::new(n)
    }
}

// coefficient / 10^scale
#[derive(Clone, Copy, Debug)]
pub struct Number {
    pub coefficient: i64,
    pub scale: u32,
}

// What is to be shown. A text's units are the slice lent beside it.
#[derive(Clone, Copy, Debug)]
pub enum Value {
    Number(Number),
    Instant(Day, Millisecond),
    Text,
}

// All that showing is told besides what is lent.
#[derive(Clone, Copy, Debug)]
pub struct Ask {
    pub value: Value,
}

// A value, and nothing else, asked for.
pub fn asked(value: Value) -> Ask
    ensures { result ≡ asked value }
{
    Ask { value }
}
