// The items of a date-time section, in a walk of its own: it keeps little, and ends at the first fault.
#![tactic(auto)]

mod earlier_runs;

ghost use Rattle.std.specs.Prelude.{◌≡◌};
ghost use Rattle.tables.specs.Words.{entries_in};
ghost use Rattle.tables.specs.Encode.{entry};
ghost use Rattle.date_rows.specs.DateRows.{DateTold, date_next, passed, ran, plain_told, elapsed_taken};

use earlier_runs::Earlier;
use scans::has_tag;
use tables::tags;

// Whether a half-day mark is among the items of a date-time section.
#[derive(Clone, Copy)]
pub struct DatedRow {
    pub halves: bool,
}

// What is kept from one item to the next, where none was at fault.
#[derive(Clone, Copy)]
struct DateWalk {
    // the nearest earlier run
    earlier: Earlier,
    // the item just before is seconds
    behind_seconds: bool,
    // a fill was met
    filled: bool,
    // the tag of the plain equivalent of the elapsed item that was met
    plain: Option<u16>,
    // a half-day mark was met
    halves: bool,
}

// Behind an item that nothing else is kept of.
fn pass(s: DateWalk, earlier: Earlier, behind_seconds: bool) -> DateWalk
    ensures { result ≡ passed s earlier behind_seconds }
{
    DateWalk {
        earlier: earlier,
        behind_seconds: behind_seconds,
        ..s
    }
}

#[tactic(auto, using(std::proofs::lemmas::Bool::Decides::nat_tests), unfolding(crate::proofs::DateSteps::computed))]
fn fill(s: DateWalk, a: u16) -> Option<DateWalk>
    ensures { result ≡ date_next s (entry 3 a) }
{
    if s.filled {
        return None;
    }
    Some(DateWalk {
        behind_seconds: false,
        filled: true,
        ..s
    })
}

// A date or time run, by the answer of its own tests, and whether it is seconds.
fn run(s: DateWalk, sound: bool, run: Earlier, is_seconds: bool) -> Option<DateWalk>
    ensures { result ≡ ran s sound run is_seconds }
{
    if !sound {
        return None;
    }
    if s.earlier.answers(run) {
        return Some(pass(s, run, is_seconds));
    }
    None
}

// A month of 1 or 2 does not stand behind hours.
#[tactic(auto, using(std::proofs::lemmas::Bool::Decides::nat_tests), unfolding(crate::proofs::DateSteps::computed))]
fn month(s: DateWalk, a: u16) -> Option<DateWalk>
    ensures { result ≡ date_next s (entry 12 a) }
{
    let short = a <= 2;
    if short & (s.earlier == Earlier::Hours) {
        return None;
    }
    let waits = if short {
        Earlier::MonthWaits
    } else {
        Earlier::Other
    };
    run(s, (1..=5).contains(&a), waits, false)
}

#[tactic(auto, using(std::proofs::lemmas::Bool::Decides::nat_tests), unfolding(crate::proofs::DateSteps::computed))]
fn minute(s: DateWalk, a: u16) -> Option<DateWalk>
    ensures { result ≡ date_next s (entry 15 a) }
{
    let waits = if s.earlier == Earlier::Hours {
        Earlier::Other
    } else {
        Earlier::MinutesWait
    };
    run(s, (1..=2).contains(&a), waits, false)
}

// A part of a second stands directly behind seconds.
#[tactic(auto, using(std::proofs::lemmas::Bool::Decides::nat_tests), unfolding(crate::proofs::DateSteps::computed))]
fn part(s: DateWalk, a: u16) -> Option<DateWalk>
    ensures { result ≡ date_next s (entry 17 a) }
{
    if s.behind_seconds & (1..=3).contains(&a) {
        return Some(pass(s, s.earlier, false));
    }
    None
}

// The one elapsed item, with the tag of its plain equivalent.
fn elapsed(s: DateWalk, plain: u16, a: u16, run: Earlier, is_seconds: bool) -> Option<DateWalk>
    ensures { result ≡ elapsed_taken s plain a run is_seconds }
{
    let right = s.earlier.answers(run);
    if s.plain.is_none() & ((1..=9).contains(&a) & right) {
        return Some(DateWalk {
            earlier: run,
            behind_seconds: is_seconds,
            plain: Some(plain),
            ..s
        });
    }
    None
}

#[tactic(auto, using(std::proofs::lemmas::Bool::Decides::nat_tests), unfolding(crate::proofs::DateSteps::computed))]
fn half_day(s: DateWalk, a: u16) -> Option<DateWalk>
    ensures { result ≡ date_next s (entry 21 a) }
{
    if (1..=2).contains(&a) {
        return Some(DateWalk {
            behind_seconds: false,
            halves: true,
            ..s
        });
    }
    None
}

// The walk by one item, with its tag and its argument. An item of another kind, and a tag of none, is refused.
#[tactic(auto, using(std::proofs::lemmas::Bool::Decides::nat_tests), unfolding(crate::proofs::DateSteps::computed))]
fn step(s: DateWalk, tag: u16, a: u16) -> Option<DateWalk>
    ensures { result ≡ date_next s (entry tag a) }
{
    match tag {
        tags::LITERAL => Some(pass(s, s.earlier, false)),
        tags::BLANK => Some(pass(s, s.earlier, false)),
        tags::FILL => fill(s, a),
        tags::YEAR => run(s, (a == 2) | (a == 4), Earlier::Other, false),
        tags::MONTH => month(s, a),
        tags::DAY => run(s, (1..=4).contains(&a), Earlier::Other, false),
        tags::HOUR => run(s, (1..=2).contains(&a), Earlier::Hours, false),
        tags::MINUTE => minute(s, a),
        tags::SECOND => run(s, (1..=2).contains(&a), Earlier::Seconds, true),
        tags::PART => part(s, a),
        tags::ELAPSED_HOURS => elapsed(s, tags::HOUR, a, Earlier::Hours, false),
        tags::ELAPSED_MINUTES => elapsed(s, tags::MINUTE, a, Earlier::Other, false),
        tags::ELAPSED_SECONDS => elapsed(s, tags::SECOND, a, Earlier::Seconds, true),
        tags::HALF_DAY => half_day(s, a),
        _ => None,
    }
}

// Whether the plain equivalent of the elapsed item is there. Few sections have an elapsed item: it is looked for then.
fn has_plain(words: &[u16], plain: Option<u16>) -> bool
    ensures { result ≡ plain_told (entries_in words.now) plain }
{
    match plain {
        Some(tag) => has_tag(words, tag),
        None => false,
    }
}

// What the items of a date-time section tell, whose words these are.
pub fn dated_row(words: &[u16]) -> Option<DatedRow>
    ensures { DateTold (entries_in words.now) result }
{
    let mut s = DateWalk {
        earlier: Earlier::Nothing,
        behind_seconds: false,
        filled: false,
        plain: None,
        halves: false,
    };
    // of `chunks_exact` the walk takes an instruction an item more
    for &[tag, a] in words.as_chunks::<2>().0 {
        s = step(s, tag, a)?;
    }
    if s.earlier.is_open() {
        return None;
    }
    if has_plain(words, s.plain) {
        return None;
    }
    Some(DatedRow { halves: s.halves })
}
