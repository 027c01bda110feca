// What the calls for C return, as plain numbers in the structs that include/numfmt.h declares, and what they are asked, from plain
// numbers. It stands apart from the calls, so that a must-fail edit of a number does not pay for all that they call.
#![tactic(auto)]

ghost use Rattle.std.specs.Prelude.{◌≡◌, ◌+◌, ◌≤◌};
ghost use Rattle.c_numbers.specs.Numbers.{prepared_numbers, part_numbers, check_number, shown_numbers, why_numbers, put_numbers, cleared_numbers, fed_numbers, finished_numbers, number_ask, instant_ask};

use answers::{DONE, Refusal, Refused, Shown, number};
use boards::{Board, ClearedRow, PutRow};
use grounds::{Grounds, choice_number, minus_number, tried_number};
use streams::{Fed, Finished, Stream};
use values::{Ask, Day, Millisecond, Number, Value, asked};

// numfmt_prepared
#[repr(C)]
#[derive(Clone, Copy)]
pub struct PreparedNumbers {
    pub answer: u16,
    pub place: u32,
    pub words: u32,
}

// numfmt_part
#[repr(C)]
#[derive(Clone, Copy)]
pub struct PartNumbers {
    pub start: u32,
    pub length: u32,
}

// numfmt_shown
#[repr(C)]
#[derive(Clone, Copy)]
pub struct ShownNumbers {
    pub answer: u16,
    pub length: u32,
    pub colour: u16,
    pub section: u16,
    pub exact: u16,
}

// numfmt_reason
#[repr(C)]
#[derive(Clone, Copy)]
pub struct WhyNumbers {
    pub answer: u16,
    pub section: u16,
    pub choice: u16,
    pub first: u16,
    pub second: u16,
    pub minus: u16,
    pub cut: u16,
}

// numfmt_put
#[repr(C)]
#[derive(Clone, Copy)]
pub struct PutNumbers {
    pub board: Board,
    pub shown: ShownNumbers,
}

// numfmt_cleared
#[repr(C)]
#[derive(Clone, Copy)]
pub struct ClearedNumbers {
    pub board: Board,
    pub answer: u16,
}

// numfmt_fed
#[repr(C)]
#[derive(Clone, Copy)]
pub struct FedNumbers {
    pub stream: Stream,
    pub answer: u16,
    pub place: u32,
}

// numfmt_finished
#[repr(C)]
#[derive(Clone, Copy)]
pub struct FinishedNumbers {
    pub stream: Stream,
    pub prepared: PreparedNumbers,
}

impl From<Result<u32, Refused>> for PreparedNumbers {
    ghost from_gives = { λ p n. n ≡ prepared_numbers p };

    fn from(prepared: Result<u32, Refused>) -> PreparedNumbers {
        match prepared {
            Ok(words) => PreparedNumbers {
                answer: DONE,
                place: 0,
                words,
            },
            Err(refused) => PreparedNumbers {
                answer: number(refused.refusal),
                place: refused.place,
                words: 0,
            },
        }
    }
}

// A section stands among the 254 units that a code may have. (That is asked of the caller, as `From` can't.)
pub fn part_numbers(start: usize, size: usize) -> PartNumbers
    requires { start + size ≤ 254 }
    ensures { result ≡ part_numbers (record { start = start; size = size }) }
{
    PartNumbers {
        start: start as u32,
        length: size as u32,
    }
}

pub fn check_number(passed: bool) -> u16
    ensures { result ≡ check_number passed }
{
    if passed { DONE } else { number(Refusal::Table) }
}

impl From<Result<Shown, Refusal>> for ShownNumbers {
    ghost from_gives = { λ s n. n ≡ shown_numbers s };

    fn from(shown: Result<Shown, Refusal>) -> ShownNumbers {
        match shown {
            Ok(shown) => ShownNumbers {
                answer: DONE,
                length: shown.length,
                colour: shown.colour,
                section: shown.section,
                exact: u16::from(shown.exact),
            },
            Err(refusal) => ShownNumbers {
                answer: number(refusal),
                length: 0,
                colour: 0,
                section: 0,
                exact: 0,
            },
        }
    }
}

pub fn number_ask(coefficient: i64, scale: u32) -> Ask
    ensures { result ≡ number_ask coefficient scale }
{
    asked(Value::Number(Number { coefficient, scale }))
}

pub fn instant_ask(day: u32, millisecond: u32) -> Ask
    ensures { result ≡ instant_ask day millisecond }
{
    asked(Value::Instant(Day(day), Millisecond(millisecond)))
}

impl From<Result<Grounds, Refusal>> for WhyNumbers {
    ghost from_gives = { λ w n. n ≡ why_numbers w };

    fn from(why: Result<Grounds, Refusal>) -> WhyNumbers {
        match why {
            Ok(grounds) => WhyNumbers {
                answer: DONE,
                section: grounds.section,
                choice: choice_number(grounds.choice),
                first: tried_number(grounds.first),
                second: tried_number(grounds.second),
                minus: minus_number(grounds.minus),
                cut: grounds.cut,
            },
            Err(refusal) => WhyNumbers {
                answer: number(refusal),
                section: 0,
                choice: 0,
                first: 0,
                second: 0,
                minus: 0,
                cut: 0,
            },
        }
    }
}

impl From<PutRow> for PutNumbers {
    ghost from_gives = { λ p n. n ≡ put_numbers p };

    fn from(put: PutRow) -> PutNumbers {
        PutNumbers {
            board: put.board,
            shown: put.shown.into(),
        }
    }
}

impl From<ClearedRow> for ClearedNumbers {
    ghost from_gives = { λ c n. n ≡ cleared_numbers c };

    fn from(row: ClearedRow) -> ClearedNumbers {
        ClearedNumbers {
            board: row.board,
            answer: match row.cleared {
                Ok(()) => DONE,
                Err(refusal) => number(refusal),
            },
        }
    }
}

impl From<Fed> for FedNumbers {
    ghost from_gives = { λ f n. n ≡ fed_numbers f };

    fn from(fed: Fed) -> FedNumbers {
        let (answer, place) = match fed.fed {
            Ok(()) => (DONE, 0),
            Err(refused) => (number(refused.refusal), refused.place),
        };
        FedNumbers {
            stream: fed.stream,
            answer,
            place,
        }
    }
}

impl From<Finished> for FinishedNumbers {
    ghost from_gives = { λ f n. n ≡ finished_numbers f };

    fn from(finished: Finished) -> FinishedNumbers {
        FinishedNumbers {
            stream: finished.stream,
            prepared: finished.prepared.into(),
        }
    }
}
