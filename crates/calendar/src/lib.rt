// Days and times: the definitions stand in specs/, their laws in proofs/.
#![tactic(auto)]

mod tables;

ghost use Rattle.std.specs.Prelude.{◌≡◌, ℕ, suc, ◌+◌, ◌-◌, ◌*◌, ◌/◌, ◌%◌, ◌^◌, ◌≤◌, ◌<◌, cond, leb, get_or};
ghost use Rattle.std.proofs.Math.Option.{some};
ghost use Rattle.searching.specs.Machine.{started};
ghost use Rattle.searching.specs.Search.{driven, answered};
ghost use Rattle.calendar.specs.Year.{leap, first_day, year_day_of};
ghost use Rattle.calendar.specs.Date.{month_days, month_day_from, date_of};
ghost use Rattle.calendar.specs.Clock.{twelve_hour, afternoon, since_day_zero};
ghost use Rattle.calendar.specs.Tables.{first_days};
ghost use Rattle.calendar.specs.Moved.{moved_by};
ghost use Rattle.calendar.specs.Made.{made_year_day, made_month_day, made_date};

use searching::Turn;
use values::{Day, Millisecond};

// A year, as 1900 + years, and a day of it, the first being 1.
#[derive(Drop)]
struct YearDay {
    years: u32,
    day: u32,
}

// A year, as 1900 + years, and the number of its first day.
#[derive(Drop)]
struct YearStart {
    years: u32,
    first: u32,
}

// A day of the table's years, and how many years later it stands for.
#[derive(Drop)]
struct Cycled {
    years: u32,
    day: u32,
}

// A month, January being 1, and a day of it.
#[derive(Drop)]
struct MonthDay {
    month: u32,
    day: u32,
}

// Weekday 1 is Sunday, 0 Saturday.
#[derive(Clone, Copy)]
pub struct Date {
    pub year: u32,
    pub month: u32,
    pub day: u32,
    pub weekday: u32,
}

// The table: its rule is computed once over it, and carried to each year by law.
fn first_days() -> [u32; 401]
    ensures { result ≡ first_days }
{
    tables::FIRST_DAYS
}

// The number of an entry, where it is not above the day, else the number kept so far.
fn kept(day: u32, number: u32, before: u32) -> u32
    ensures { result ≡ cond (leb number day) number before }
{
    if number <= day { number } else { before }
}

// Hands the search the entries of the table that it names, ten at most. The table is taken once: each use of the constant makes it
// anew. From day 1 on the search finds a year, so the other answers are not given.
fn driven_year(day: u32) -> YearStart
    requires { 1 ≤ day }
    ensures { (driven 10 first_days (started day) ≡ answered (some result.years)) × (result.first ≡ get_or first_days result.years 0) }
{
    let firsts = first_days();
    let mut turn = searching::start(day);
    let mut first: u32 = 0;
    let mut left: u32 = 10;
    loop {
        match turn {
            Turn::Read(k, s) => {
                if left == 0 {
                    return YearStart { years: 0, first };
                }
                let number = firsts[k as usize];
                first = kept(day, number, first);
                turn = searching::told(s, number);
                left -= 1;
            }
            Turn::Found(k) => {
                return YearStart { years: k, first };
            }
            Turn::Nothing => {
                return YearStart { years: 0, first };
            }
        }
    }
}

// The year of a day of the table's years, 1900 to 2300.
fn year_within(day: u32) -> YearStart
    requires { (1 ≤ day) × (day < 146464) }
    ensures { (result.years ≤ 400) × (result.first ≡ first_day result.years) × (result.first ≤ day) × (day < first_day (suc result.years)) }
{
    driven_year(day)
}

// A day number as a day of the table's years, and the years that it stands behind that: from 1901 on the years repeat every 146,097
// days, and the table has the first such cycle.
fn in_table(day: u32) -> Cycled
    requires { 367 ≤ day }
    ensures { (result.years ≡ 400 * ((day - 367) / 146097)) × (result.day ≡ (day - 367) % 146097 + 367) }
{
    if day < 146464 {
        return Cycled { years: 0, day };
    }
    Cycled {
        years: 400 * ((day - 367) / 146097),
        day: (day - 367) % 146097 + 367,
    }
}

// The year of a day number.
fn year_day_of(d: Day) -> YearDay
    ensures { result ≡ made_year_day (year_day_of d.0) }
{
    let day = d.0;
    if day < 367 {
        return YearDay { years: 0, day };
    }
    let c = in_table(day);
    let start = year_within(c.day);
    YearDay {
        years: start.years + c.years,
        day: c.day - start.first + 1,
    }
}

// The year 1900 + years has a 29 February.
#[tactic(auto, unfolding(crate::specs::Year::leap, crate::specs::Year::gregorian_leap))]
fn is_leap(years: u32) -> bool
    requires { 1900 + years < 2 ^ 32 }
    ensures { result ≡ leap years }
{
    let y = 1900 + years;
    y % 4 == 0 && (y % 100 != 0 || y % 400 == 0 || years == 0)
}

// A day of a year in a year whose February has 30 days, so that months of 31 and 30 days take turns but at July and August.
#[tactic(auto, unfolding(crate::specs::Moved::moved_by))]
fn moved(long: bool, n: u32) -> u32
    requires { n ≤ 366 }
    ensures { (result ≡ moved_by long n) × (n ≤ result) × (result ≤ n + 2) }
{
    let (last, missing) = if long { (60, 1) } else { (59, 2) };
    if n <= last { n } else { n + missing }
}

// What is no day of any year: day 0 stands in January, the days behind December in a month 13.
fn outside_year(long: bool, n: u32) -> MonthDay
    requires { n ≤ 366 → n ≡ 0 }
    ensures { (k : ℕ) → long ≡ leap k → result ≡ made_month_day (month_day_from 1 (month_days k) n) }
{
    if n <= 366 {
        return MonthDay { month: 1, day: 0 };
    }
    MonthDay {
        month: 13,
        day: n - if long { 366 } else { 365 },
    }
}

// The month of the n-th day of the year 1900 + years, and the day of it. Once February has 30 days the months are so even that
// their numbers and first days go by a straight line.
fn month_day_of(years: u32, n: u32) -> MonthDay
    requires { 1900 + years < 2 ^ 32 }
    ensures { result ≡ made_month_day (month_day_from 1 (month_days years) n) }
{
    let long = is_leap(years);
    if !(1..=366).contains(&n) {
        return outside_year(long, n);
    }
    let day = moved(long, n);
    let month = (67 * day + 2010) / 2048;
    MonthDay {
        month,
        day: day - (489 * month - 480) / 16,
    }
}

// The date of a day number. "Weekday is day mod 7, 1 for Sunday, 0 for Saturday."
pub fn date_of(d: Day) -> Date
    ensures { result ≡ made_date (date_of d.0) }
{
    let weekday = d.0 % 7;
    let y = year_day_of(d);
    let m = month_day_of(y.years, y.day);
    Date {
        year: 1900 + y.years,
        month: m.month,
        day: m.day,
        weekday,
    }
}

// The hour on "a 12-hour clock (12, 1 to 11)".
#[tactic(auto, unfolding(crate::specs::Clock::twelve_hour))]
pub fn twelve_hour(hour: u64) -> u64
    ensures { result ≡ twelve_hour hour }
{
    match hour % 12 {
        0 => 12,
        h => h,
    }
}

#[tactic(auto, unfolding(crate::specs::Clock::afternoon))]
pub fn is_afternoon(hour: u64) -> bool
    ensures { result ≡ afternoon hour }
{
    12 <= hour
}

// The milliseconds since the start of day 0, of which "elapsed tokens count all whole units".
#[tactic(auto, unfolding(crate::specs::Clock::since_day_zero))]
pub fn since_day_zero(d: Day, m: Millisecond) -> u64
    ensures { result ≡ since_day_zero d.0 m.0 }
{
    u64::from(d.0) * 86400000 + u64::from(m.0)
}
