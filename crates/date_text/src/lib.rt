// Writes what the items of a date section show of an instant. Their texts are defined in formats/specs/Text.antt.
#![tactic(auto)]

ghost use Rattle.std.specs.Prelude.{◌≡◌, true, false, cond, ◌||◌, ℕ, ◌-◌, ◌/◌, ◌%◌, ◌≤◌, ◌<◌, ◌^◌, min};
ghost use Rattle.figures.specs.Digits.{numeral};
ghost use Rattle.formats.specs.Text.{Context, year_units, hour_shown, part_units, half_units, item_units};
ghost use Rattle.formats.specs.Reading.{day_span, item_span};
ghost use Rattle.lists.specs.Lists.{any};
ghost use Rattle.calendar.specs.Clock.{afternoon};
ghost use Rattle.calendar.specs.Made.{made_date};
ghost use Rattle.calendar.specs.Names.{month_name, weekday_name};
ghost use Rattle.tables.specs.Words.{entries_in};
ghost use Rattle.tables.specs.Encode.{entry};
ghost use Rattle.tables.specs.Decode.{half_at, item_at};
ghost use Rattle.writing.specs.Put.{Put};
ghost use Rattle.date_text.specs.Letters.{packed, letters_up_to, most_letters};
ghost use Rattle.date_text.specs.Moment.{dated_entry, date_shown, moment_of, is_named, DateIs, ClockIs};

use calendar::Date;
use tables::tags;
use values::{Day, Millisecond};
use writing::{put_unit, units};

// What items show of a day and a millisecond of it, or find what they show by.
#[derive(Clone, Copy)]
pub struct Moment {
    pub year: u32,
    pub month: u32,
    pub day: u32,
    // Its remainder by 7 is the weekday.
    pub day_number: u32,
    // Of the day. Hours, minutes and seconds are found by the item that shows them.
    pub millisecond: u32,
    // The milliseconds since day 0.
    pub elapsed: u64,
    // Hours are shown on a 12-hour clock.
    pub twelve: bool,
}

// At least how many digits an item shows, the number that they show, and the finest unit shown with it.
#[derive(Clone, Copy)]
struct Numeral {
    least: u32,
    number: u64,
    finest: u32,
}

impl Numeral {
    fn new(least: u32, number: u64, finest: u32) -> Numeral
        ensures { result ≡ record { least = least; number = number; finest = finest } }
    {
        Numeral {
            least,
            number,
            finest,
        }
    }
}

// Where a text ends that was put, and the milliseconds of the finest unit shown so far: of an hour, a minute, a second or a part of one, or
// of the day where none of these is shown.
#[derive(Clone, Copy)]
pub struct Written {
    pub end: usize,
    pub finest: u32,
}

const LETTER_A: u16 = b'A' as u16;

const LETTER_M: u16 = b'M' as u16;

const LETTER_P: u16 = b'P' as u16;

// Whether an item among these words shows the date: a year, a month or a day.
pub fn shows_date(items: &[u16]) -> bool
    ensures { result ≡ any dated_entry (entries_in items.now) }
{
    items
        .chunks_exact(2)
        .any(|entry| (tags::YEAR..=tags::DAY).contains(&entry[0]))
}

// The milliseconds of a part of a second of n digits. (By a match, as in `cut_part`: `pow` multiplies in a loop.)
fn part_span(n: u32) -> u32
    ensures { result ≡ 10 ^ (3 - n) }
{
    match n {
        0 => 1000,
        1 => 100,
        2 => 10,
        _ => 1,
    }
}

// The date of a day where it is shown. Where it is not the calendar is not asked.
fn date_shown(dated: bool, d: Day) -> Date
    ensures { result ≡ made_date (date_shown dated d.0) }
{
    if dated {
        return calendar::date_of(d);
    }
    Date {
        year: 0,
        month: 0,
        day: 0,
        weekday: 0,
    }
}

// The moment of a day and a millisecond of it. The date is found here, where `dated` says that one is shown.
pub fn moment_of(twelve: bool, dated: bool, d: Day, m: Millisecond) -> Moment
    ensures { result ≡ moment_of twelve dated d m }
{
    let date = date_shown(dated, d);
    Moment {
        year: date.year,
        month: date.month,
        day: date.day,
        day_number: d.0,
        millisecond: m.0,
        elapsed: calendar::since_day_zero(d, m),
        twelve,
    }
}

// The letters of a month's name in one number; none from month 13 on, and month 0 is named as month 1.
// (No table: a constant array would be built anew at each reading.)
#[tactic(auto, using(crate::proofs::Letters::no_month), unfolding(crate::specs::Letters::packed, calendar::specs::Names::month_name, calendar::specs::Names::month_names, calendar::specs::Names::units))]
fn month_letters(month: u32) -> u64
    ensures { result ≡ packed (month_name month) }
{
    match month {
        0 => 536106923438282,
        1 => 536106923438282,
        2 => 68621686208508614,
        3 => 28126785741,
        4 => 29213112385,
        5 => 1994957,
        6 => 213629642,
        7 => 255539914,
        8 => 4016846797505,
        9 => 8271858446746006227,
        10 => 504874177212879,
        11 => 64623894115235790,
        12 => 64623894114923204,
        _ => 0,
    }
}

// The letters of a weekday's name in one number, Saturday being 0; none from weekday 7 on.
#[tactic(auto, unfolding(crate::specs::Letters::packed, calendar::specs::Names::weekday_name, calendar::specs::Names::weekday_names, calendar::specs::Names::units))]
fn weekday_letters(weekday: u32) -> u64
    ensures { result ≡ packed (weekday_name weekday) }
{
    match weekday {
        0 => 68547021698314451,
        1 => 4183778114259,
        2 => 4183778113485,
        3 => 535523608853204,
        4 => 8774018807436489431,
        5 => 68547021960475732,
        6 => 4183778031942,
        _ => 0,
    }
}

// Puts the first letters of a name, at most `most` of them.
fn put_letters(room: &mut [u16], at: usize, most: u32, letters: u64) -> usize
    requires { at < 2 ^ 62 }
    ensures { Put room.old at (letters_up_to most letters) result room.new }
{
    let mut rest = letters;
    let mut o = at;
    for _ in 0..most {
        if rest == 0 {
            return o;
        }
        o = put_unit(room, o, (rest % 128) as u16);
        rest /= 128;
    }
    o
}

// How many letters of a name a run of n shows, from three on: three, all of them, or the first.
fn most_letters(n: u32) -> u32
    ensures { result ≡ most_letters n }
{
    if n == 3 {
        return 3;
    }
    if n == 4 {
        return 9;
    }
    1
}

// Whether an item is a month or a day that is shown by its name. (By returns: with `|`
// and `&` a text takes some twenty instructions more.)
fn is_named(tag: u16, n: u32) -> bool
    ensures { result ≡ is_named tag n }
{
    if tag == tags::MONTH {
        return 2 < n;
    }
    if tag == tags::DAY {
        return 2 < n;
    }
    false
}

// Puts the name of a moment's month, or of its day. (Two calls of `put_letters`: one
// behind a choice of the name takes some ten instructions more.)
fn put_name(room: &mut [u16], at: usize, tag: u16, n: u32, m: &Moment) -> usize
    requires { (at < 2 ^ 62) × (is_named tag n ≡ true) }
    ensures { (c : Context) (q : ℕ) → (dated_entry (entry tag n) ≡ true → DateIs m.now c)
        → Put room.old at (item_units c q (item_at (entry tag n))) result room.new }
{
    let most = most_letters(n);
    if tag == tags::MONTH {
        return put_letters(room, at, most, month_letters(m.month));
    }
    put_letters(room, at, most, weekday_letters(m.day_number % 7))
}

// The thousandths cut to n digits.
fn cut_part(n: u32, thousandth: u64) -> u64
    ensures { result ≡ thousandth / 10 ^ (3 - n) }
{
    match n {
        0 => thousandth / 1000,
        1 => thousandth / 100,
        2 => thousandth / 10,
        _ => thousandth,
    }
}

fn put_part(room: &mut [u16], at: usize, n: u32, thousandth: u64) -> usize
    requires { at < 2 ^ 62 }
    ensures { Put room.old at (part_units n thousandth) result room.new }
{
    let a = put_unit(room, at, units::POINT);
    writing::put_digits(room, a, n, cut_part(n, thousandth))
}

// The first letter of a half-day mark.
fn half_letter(hour: u64) -> u16
    ensures { result ≡ cond (afternoon hour) 80 65 }
{
    if calendar::is_afternoon(hour) {
        return LETTER_P;
    }
    LETTER_A
}

// What a half-day mark's item has in a table for A or P; else it is AM or PM.
const SHORT_MARK: u32 = 1;

fn put_half(room: &mut [u16], at: usize, mark: u32, hour: u64) -> usize
    requires { at < 2 ^ 62 }
    ensures { Put room.old at (half_units (half_at mark) (afternoon hour)) result room.new }
{
    let a = put_unit(room, at, half_letter(hour));
    if mark == SHORT_MARK {
        return a;
    }
    put_unit(room, a, LETTER_M)
}

fn hour_shown(twelve: bool, hour: u64) -> u64
    ensures { result ≡ hour_shown twelve hour }
{
    if twelve {
        return calendar::twelve_hour(hour);
    }
    hour
}

// Two digits of the year, or four.
fn year_numeral(n: u32, year: u32, finest: u32) -> Numeral
    ensures { (year_units n year ≡ numeral result.least result.number) × (result.finest ≡ finest) }
{
    if n == 2 {
        return Numeral::new(2, (year % 100) as u64, finest);
    }
    Numeral::new(4, year as u64, finest)
}

// The numeral of an item that is shown by digits.
fn numeral_of(tag: u16, n: u32, m: &Moment, finest: u32) -> Numeral
    requires { (10 < tag) × (¬ (tag ≡ 17)) × (tag < 21) × (is_named tag n ≡ false) × (finest ≤ day_span) }
    ensures units { (c : Context) (q : ℕ) → ClockIs m.now c → (dated_entry (entry tag n) ≡ true → DateIs m.now c)
        → item_units c q (item_at (entry tag n)) ≡ numeral result.least result.number }
    ensures finest { result.finest ≡ min finest (item_span (item_at (entry tag n))) }
{
    let ms = m.millisecond;
    match tag {
        tags::YEAR => year_numeral(n, m.year, finest),
        tags::MONTH => Numeral::new(n, m.month as u64, finest),
        tags::DAY => Numeral::new(n, m.day as u64, finest),
        tags::HOUR => Numeral::new(
            n,
            hour_shown(m.twelve, (ms / 3600000) as u64),
            finest.min(3600000),
        ),
        tags::MINUTE => Numeral::new(n, (ms / 60000 % 60) as u64, finest.min(60000)),
        tags::SECOND => Numeral::new(n, (ms / 1000 % 60) as u64, finest.min(1000)),
        tags::ELAPSED_HOURS => Numeral::new(n, m.elapsed / 3600000, finest.min(3600000)),
        tags::ELAPSED_MINUTES => Numeral::new(n, m.elapsed / 60000, finest.min(60000)),
        _ => Numeral::new(n, m.elapsed / 1000, finest.min(1000)),
    }
}

// Puts the text of a date section's item that a table has under a tag above that of `@`. (`put_numeral`
// is called here alone: the compiler has it in place then, which it had not with a call for each sort of item. Tags are
// tested for being equal alone: the compiler makes one `match` of it.)
pub fn put_moment_item(
    room: &mut [u16],
    at: usize,
    tag: u16,
    argument: u16,
    m: &Moment,
    finest: u32,
) -> Written
    requires { (at < 2 ^ 62) × (10 < tag) × (tag < 22) × (finest ≤ day_span) }
    ensures put { (c : Context) (q : ℕ) → ClockIs m.now c → (dated_entry (entry tag argument) ≡ true → DateIs m.now c)
        → Put room.old at (item_units c q (item_at (entry tag argument))) result.end room.new }
    ensures finest { result.finest ≡ min finest (item_span (item_at (entry tag argument))) }
{
    let n = argument as u32;
    if tag == tags::PART {
        return Written {
            end: put_part(room, at, n, (m.millisecond % 1000) as u64),
            finest: finest.min(part_span(n)),
        };
    }
    if tag == tags::HALF_DAY {
        return Written {
            end: put_half(room, at, n, (m.millisecond / 3600000) as u64),
            finest,
        };
    }
    if is_named(tag, n) {
        return Written {
            end: put_name(room, at, tag, n, m),
            finest,
        };
    }
    let x = numeral_of(tag, n, m, finest);
    Written {
        end: writing::put_numeral(room, at, x.least, x.number),
        finest: x.finest,
    }
}
