// What the rules ask of a section's items, told by counts: one pass over their words, and the rules as tests on the counts.
#![tactic(auto)]

ghost use Rattle.std.specs.Prelude.{◌≡◌, ◌≤◌, ◌<◌, length};
ghost use Rattle.tables.specs.Words.{entries_in};
ghost use Rattle.tables.specs.Encode.{entry};
ghost use Rattle.tallies.specs.Tally.{tally_of, has_places, has_number_items, Uncut, Cut, kind_told, allowed_told, no_plain_told, exponent_told, items_fit_told, within_told, fraction_told, decimals_told};
ghost use Rattle.tallies.specs.Walk.{counted_of, placed_of, elapsed_of, fixed_of, cut_of, step_of, finished_of, Few, Weights};

use tables::{kinds, tags};

// What the items of a section tell together.
#[derive(Clone, Copy)]
pub struct Tally {
    // no elapsed run is too long, and no fixed number
    pub short: bool,
    // integer and decimal places, and how many there are of some other items
    pub integers: u16,
    pub decimals: u16,
    pub points: u16,
    pub percents: u16,
    pub generals: u16,
    pub elapsed: u16,
    pub exponents: u16,
    pub solidi: u16,
    // places behind the first E or solidus
    pub places_behind: u16,
    // a point or `?` stands behind it
    pub misplaced: bool,
    // an item makes a text section, a date-time section; an item belongs to a date-time section
    pub texts: bool,
    pub dating: bool,
    pub dates: bool,
    pub hours: bool,
    pub minutes: bool,
    pub seconds: bool,
    pub elapsed_hours: bool,
    pub elapsed_minutes: bool,
    pub elapsed_seconds: bool,
    pub halves: bool,
}

// What one item adds to the numbers of a walk: one to its digit, by base 256.
const INTEGERS: u64 = 1;

const DECIMALS: u64 = 256;

const POINTS: u64 = 65536;

const PERCENTS: u64 = 16777216;

const EXPONENTS: u64 = 4294967296;

// Behind the first E or solidus: a place, and a point or a place `?`, which are misplaced there.
const PLACES_BEHIND: u64 = 1099511627776;

const MISPLACED: u64 = 281474976710656;

const MISPLACED_POINTS: u64 = 281474976776192;

const SPACE_PLACES: u64 = 282574488338432;

// To the others.
const GENERALS: u64 = 1;

const TEXTS: u64 = 256;

const ELAPSED_RUNS: u64 = 65536;

const LONG_RUNS: u64 = 16777216;

const LONG_ELAPSED_RUNS: u64 = 16842752;

// A solidus or a fixed number.
const SOLIDI: u64 = 4294967296;

const LONG_NUMBERS: u64 = 4311744512;

const HALVES: u64 = 1099511627776;

const PARTS: u64 = 281474976710656;

// To the dates. Years, months and days share a digit.
const DAYS: u64 = 1;

const HOURS: u64 = 256;

const MINUTES: u64 = 65536;

const SECONDS: u64 = 16777216;

const ELAPSED_HOURS: u64 = 4294967296;

const ELAPSED_MINUTES: u64 = 1099511627776;

const ELAPSED_SECONDS: u64 = 281474976710656;

// What is kept from one item to the next. Counts stand in numbers, a digit each: no section has more than 254 items. All
// fields are of one width, and few, so that the compiler keeps them in registers.
#[derive(Clone, Copy)]
struct Walk {
    // places, points, percents and E
    numbers: u64,
    // Generals, text and elapsed items, too long ones, what makes a fraction, half-day marks and parts of a second
    others: u64,
    // the runs of a date-time section
    dates: u64,
    // what a place adds: INTEGERS up to the first point, DECIMALS from there, PLACES_BEHIND from the first E or solidus on
    unit: u64,
}

fn counted(w: Walk, number: u64, other: u64, date: u64) -> Walk
    requires { Few 253 w × Weights number other date }
    ensures { result ≡ counted_of w number other date }
{
    Walk {
        numbers: w.numbers + number,
        others: w.others + other,
        dates: w.dates + date,
        unit: w.unit,
    }
}

fn place(w: Walk, tag: u16) -> Walk
    requires { Few 253 w }
    ensures { result ≡ placed_of w tag }
{
    if (tag == tags::SPACE_PLACE) & (w.unit == PLACES_BEHIND) {
        return counted(w, SPACE_PLACES, 0, 0);
    }
    counted(w, w.unit, 0, 0)
}

// Behind the first point stand the decimal places.
#[tactic(auto, using(std::proofs::lemmas::Bool::Decides::nat_tests), unfolding(crate::proofs::Steps::computed))]
fn point(w: Walk) -> Walk
    requires { Few 253 w }
    ensures { result ≡ step_of w (entry 7 0) }
{
    if w.unit == INTEGERS {
        return Walk {
            unit: DECIMALS,
            ..counted(w, POINTS, 0, 0)
        };
    }
    if w.unit == PLACES_BEHIND {
        return counted(w, MISPLACED_POINTS, 0, 0);
    }
    counted(w, POINTS, 0, 0)
}

// Behind an E stand the exponent places, behind a solidus the denominator's.
fn cut(w: Walk, number: u64, other: u64) -> Walk
    requires { Few 253 w × Weights number other 0 }
    ensures { result ≡ cut_of w number other }
{
    Walk {
        unit: PLACES_BEHIND,
        ..counted(w, number, other, 0)
    }
}

fn fixed(w: Walk, a: u16) -> Walk
    requires { Few 253 w }
    ensures { result ≡ fixed_of w a }
{
    if 999 < a {
        return counted(w, 0, LONG_NUMBERS, 0);
    }
    counted(w, 0, SOLIDI, 0)
}

fn elapsed(w: Walk, date: u64, a: u16) -> Walk
    requires { Few 253 w × Weights 0 0 date }
    ensures { result ≡ elapsed_of w date a }
{
    if 9 < a {
        return counted(w, 0, LONG_ELAPSED_RUNS, date);
    }
    counted(w, 0, ELAPSED_RUNS, date)
}

// The pass by one item, with its tag and its argument. Places are most items, so they are told first. An unknown tag is
// read as a half-day mark.
#[tactic(auto, using(std::proofs::lemmas::Bool::Decides::nat_tests), unfolding(crate::proofs::Steps::computed))]
fn step(w: Walk, tag: u16, a: u16) -> Walk
    requires { Few 253 w }
    ensures { result ≡ step_of w (entry tag a) }
{
    if (tags::ZERO_PLACE..=tags::SPACE_PLACE).contains(&tag) {
        return place(w, tag);
    }
    match tag {
        tags::LITERAL => counted(w, 0, 0, 0),
        tags::BLANK => counted(w, 0, 0, 0),
        tags::FILL => counted(w, 0, 0, 0),
        tags::POINT => point(w),
        tags::PERCENT => counted(w, PERCENTS, 0, 0),
        tags::GENERAL => counted(w, 0, GENERALS, 0),
        tags::AT => counted(w, 0, TEXTS, 0),
        tags::YEAR => counted(w, 0, 0, DAYS),
        tags::MONTH => counted(w, 0, 0, DAYS),
        tags::DAY => counted(w, 0, 0, DAYS),
        tags::HOUR => counted(w, 0, 0, HOURS),
        tags::MINUTE => counted(w, 0, 0, MINUTES),
        tags::SECOND => counted(w, 0, 0, SECONDS),
        tags::PART => counted(w, 0, PARTS, 0),
        tags::ELAPSED_HOURS => elapsed(w, ELAPSED_HOURS, a),
        tags::ELAPSED_MINUTES => elapsed(w, ELAPSED_MINUTES, a),
        tags::ELAPSED_SECONDS => elapsed(w, ELAPSED_SECONDS, a),
        tags::HALF_DAY => counted(w, 0, HALVES, 0),
        tags::EXPONENT_PLUS => cut(w, EXPONENTS, 0),
        tags::EXPONENT_MINUS => cut(w, EXPONENTS, 0),
        tags::SOLIDUS => cut(w, 0, SOLIDI),
        tags::FIXED => fixed(w, a),
        _ => counted(w, 0, HALVES, 0),
    }
}

// What a walk tells: the digits of its numbers.
fn tally_of(w: Walk) -> Tally
    ensures { result ≡ finished_of w }
{
    Tally {
        short: w.others / LONG_RUNS % 256 == 0,
        integers: (w.numbers % 256) as u16,
        decimals: (w.numbers / DECIMALS % 256) as u16,
        points: (w.numbers / POINTS % 256) as u16,
        percents: (w.numbers / PERCENTS % 256) as u16,
        generals: (w.others % 256) as u16,
        elapsed: (w.others / ELAPSED_RUNS % 256) as u16,
        exponents: (w.numbers / EXPONENTS % 256) as u16,
        solidi: (w.others / SOLIDI % 256) as u16,
        places_behind: (w.numbers / PLACES_BEHIND % 256) as u16,
        misplaced: 0 < w.numbers / MISPLACED % 256,
        texts: 0 < w.others / TEXTS % 256,
        dating: 0 < w.dates,
        dates: (0 < w.dates) | (0 < w.others / HALVES),
        hours: 0 < w.dates / HOURS % 256,
        minutes: 0 < w.dates / MINUTES % 256,
        seconds: 0 < w.dates / SECONDS % 256,
        elapsed_hours: 0 < w.dates / ELAPSED_HOURS % 256,
        elapsed_minutes: 0 < w.dates / ELAPSED_MINUTES % 256,
        elapsed_seconds: 0 < w.dates / ELAPSED_SECONDS % 256,
        halves: 0 < w.others / HALVES % 256,
    }
}

// What the items of a section tell, whose words these are.
pub fn tally_words(words: &[u16]) -> Tally
    requires { length words.now ≤ 508 }
    ensures { result ≡ tally_of (entries_in words.now) }
{
    let mut w = Walk {
        numbers: 0,
        others: 0,
        dates: 0,
        unit: INTEGERS,
    };
    for &[tag, a] in words.as_chunks::<2>().0 {
        w = step(w, tag, a);
    }
    tally_of(w)
}

// Most sections have no E and no solidus: their tests look at nothing that only these bring.
fn has_places(t: Tally) -> bool
    requires { Uncut t }
    ensures { result ≡ has_places t }
{
    (0 < t.integers) | (0 < t.decimals)
}

fn has_number_items(t: Tally) -> bool
    requires { Uncut t }
    ensures { result ≡ has_number_items t }
{
    has_places(t) | ((0 < t.points) | (0 < t.percents))
}

// The kind word of a section without them.
pub fn kind(t: Tally) -> u16
    requires { Uncut t }
    ensures { result ≡ kind_told t }
{
    if t.texts {
        return kinds::TEXT;
    }
    if 0 < t.generals {
        return kinds::GENERAL;
    }
    if t.dating {
        return kinds::DATE_TIME;
    }
    if has_places(t) {
        return kinds::NUMBER;
    }
    kinds::LITERAL
}

// No item belongs to another kind than the section's.
fn allowed(t: Tally) -> bool
    requires { Uncut t }
    ensures { result ≡ allowed_told t }
{
    let numbers = has_number_items(t);
    if t.texts {
        return !(0 < t.generals) & (!t.dates & !numbers);
    }
    if 0 < t.generals {
        return !t.dates & !numbers;
    }
    if t.dating {
        return !numbers;
    }
    if has_places(t) {
        return !t.dates;
    }
    !t.dates & !numbers
}

// No elapsed item stands beside its plain equivalent.
fn no_plain(t: Tally) -> bool
    ensures { result ≡ no_plain_told t }
{
    if t.elapsed_hours | (t.elapsed_minutes | t.elapsed_seconds) {
        return !(t.elapsed_hours & t.hours)
            & (!(t.elapsed_minutes & t.minutes) & !(t.elapsed_seconds & t.seconds));
    }
    true
}

// One E, behind an integer place, with an exponent place and neither point nor `?` behind it.
fn exponent_fits(t: Tally) -> bool
    requires { 0 < t.exponents }
    ensures { result ≡ exponent_told t }
{
    (t.exponents <= 1) & (1 <= t.integers) & (1 <= t.places_behind) & !t.misplaced
}

pub fn items_fit(t: Tally) -> bool
    requires { Uncut t }
    ensures { result ≡ items_fit_told t }
{
    allowed(t) & ((t.generals <= 1) & ((t.points <= 1) & ((t.elapsed <= 1) & no_plain(t))))
}

// The limits, but for that on exponent places.
pub fn within(t: Tally, thousands: u16) -> bool
    requires { t.places_behind ≤ 3 }
    ensures { result ≡ within_told t thousands }
{
    (t.integers <= 20) & ((t.decimals <= 15) & ((t.percents <= 5) & ((thousands <= 5) & t.short)))
}

pub fn decimals_word(t: Tally) -> u16
    requires { Uncut t }
    ensures { result ≡ decimals_told t }
{
    if kind(t) == kinds::NUMBER {
        t.decimals
    } else {
        0
    }
}

// The kind word of a section with an E or a solidus.
pub fn cut_kind(t: Tally) -> u16
    requires { Cut t }
    ensures { result ≡ kind_told t }
{
    if t.texts {
        return kinds::TEXT;
    }
    if 0 < t.generals {
        return kinds::GENERAL;
    }
    if t.dating {
        return kinds::DATE_TIME;
    }
    if 0 < t.exponents {
        return kinds::SCIENTIFIC;
    }
    kinds::FRACTION
}

// A scientific section holds no date item, percent or solidus.
fn scientific_items_fit(t: Tally) -> bool
    requires { kind_told t ≡ 5 }
    ensures { result ≡ items_fit_told t }
{
    (!t.dates & (!(0 < t.percents) & !(0 < t.solidi)))
        & ((t.points <= 1) & ((t.elapsed <= 1) & (no_plain(t) & exponent_fits(t))))
}

// A fraction holds no date item, point or percent.
fn fraction_items_fit(t: Tally) -> bool
    requires { kind_told t ≡ 6 }
    ensures { result ≡ items_fit_told t }
{
    (!t.dates & (!(0 < t.points) & !(0 < t.percents))) & ((t.elapsed <= 1) & no_plain(t))
}

// No text, General or date-time section holds an E or a solidus.
pub fn cut_items_fit(t: Tally) -> bool
    requires { Cut t }
    ensures { result ≡ items_fit_told t }
{
    let kind = cut_kind(t);
    if kind == kinds::SCIENTIFIC {
        return scientific_items_fit(t);
    }
    if kind == kinds::FRACTION {
        return fraction_items_fit(t);
    }
    false
}

// The limits of a fraction, whose integer places and numerator stand apart.
pub fn fraction_within(t: Tally, thousands: u16, wholes: u16, numerators: u16) -> bool
    ensures { result ≡ fraction_told t thousands wholes numerators }
{
    (wholes <= 20)
        & ((numerators <= 20)
            & ((t.decimals <= 15)
                & ((t.places_behind <= 3) & ((t.percents <= 5) & ((thousands <= 5) & t.short)))))
}

pub fn cut_decimals(t: Tally) -> u16
    requires { Cut t }
    ensures { result ≡ decimals_told t }
{
    if kinds::SCIENTIFIC <= cut_kind(t) {
        t.decimals
    } else {
        0
    }
}
