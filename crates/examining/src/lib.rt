// Examines a code: the tests 1 to 6 in their order, each over the whole code before the next, and the drafts of its sections.
#![tactic(auto)]

mod verdicts;

ghost use Rattle.std.specs.Prelude.{◌≡◌, ◌<◌, ◌^◌};
ghost use Rattle.examining.specs.Examine.{ExaminedAs};

use answers::{Refusal, Refused};
use drafting::sections::draft_all;
use drafting::{Draft, EMPTY};
use lexing::buffer::{fill, semicolon_place};
use marks::Mark;
use verdicts::judge;

// The longest code.
const LONGEST: usize = 254;

const NO_MARK: Mark = Mark {
    form: 0,
    argument: 0,
    start: 0,
};

// What is written while a code is examined: its tokens, the drafts of its sections, the words of its items. (`EMPTY` is not all
// zeros, and the drafts stand between the other two: 2,048 bytes of zeros in one piece would be cleared byte by byte.)
#[derive(Clone, Copy)]
pub struct Room {
    pub tokens: [Mark; 254],
    pub drafts: [Draft; 4],
    pub items: [u16; 508],
}

impl Room {
    pub fn new() -> Self {
        Room {
            tokens: [NO_MARK; 254],
            drafts: [EMPTY; 4],
            items: [0; 508],
        }
    }
}

// How many tokens and sections a code has that is not refused, and how many words the items have.
#[derive(Clone, Copy)]
pub struct Examined {
    pub tokens: usize,
    pub sections: usize,
    pub words: usize,
}

fn refused(refusal: Refusal, place: usize) -> Refused
    requires { place < 2 ^ 32 }
    ensures { result ≡ record { refusal = refusal; place = place } }
{
    Refused {
        refusal,
        place: place as u32,
    }
}

// Examines a code. The room then holds its tokens, its items and its drafts.
pub fn examine(code: &[u16], room: &mut Room) -> Result<Examined, Refused>
    ensures { ExaminedAs code.now room.new.tokens result room.new.items room.new.drafts }
{
    if !(1..=LONGEST).contains(&code.len()) {
        return Err(refused(Refusal::CodeLength, 0));
    }
    let filled = match fill(code, &mut room.tokens) {
        Ok(filled) => filled,
        Err(place) => return Err(refused(Refusal::Token, place)),
    };
    let tokens = &room.tokens[..filled.tokens];
    if 3 < filled.semicolons {
        return Err(refused(Refusal::SectionCount, semicolon_place(tokens, 3)));
    }
    let sections = filled.semicolons + 1;
    let words = draft_all(code, tokens, sections, &mut room.items, &mut room.drafts);
    judge(&room.drafts[..sections])?;
    Ok(Examined {
        tokens: filled.tokens,
        sections,
        words,
    })
}
