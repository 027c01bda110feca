// Reads the program's three lines: a code, the kind of a value, and the value.
#![tactic(auto)]

pub mod bytes;
pub mod digits;
pub mod lines;
mod written;

ghost use Rattle.std.specs.Prelude.{◌≡◌, ◌≤◌, length};
ghost use Rattle.requests.specs.Request.{request_of};
ghost use Rattle.requests.specs.Reads.{part_of, Within, text_part, Reads};

use lines::{Part, line_at};
use values::{Ask, asked};
use written::{Sort, sort_of, value_of};

// A code, what is asked, and the text beside it.
#[derive(Clone, Copy)]
pub struct Request {
    pub code: Part,
    pub ask: Ask,
    pub text: Part,
}

// The first malformed line.
#[derive(Clone, Copy, Debug, PartialEq, Eq)]
pub struct Malformed(pub u32);

// The units of a part.
pub fn part_of(input: &[u16], p: Part) -> &[u16]
    requires { Within input.now p }
    ensures units { result.now ≡ part_of input.now p }
    ensures short { length result.now ≤ 2048 }
{
    let a = p.start;
    let e = p.end;
    &input[a..e]
}

// The part that is the text beside a value.
fn text_part(sort: Sort, value: Part) -> Part
    ensures { result ≡ text_part sort value }
{
    match sort {
        Sort::Number | Sort::Instant => Part { start: 0, end: 0 },
        Sort::Text => value,
    }
}

// The request that the input makes.
pub fn read_request(input: &[u16]) -> Result<Request, Malformed>
    ensures { Reads input.now (request_of input.now) result }
{
    let code = line_at(input, 0, b"code=").ok_or(Malformed(1))?;
    let kind = line_at(input, code.end + 1, b"kind=").ok_or(Malformed(2))?;
    let sort = sort_of(part_of(input, kind)).ok_or(Malformed(2))?;
    let line = line_at(input, kind.end + 1, b"value=").ok_or(Malformed(3))?;
    let value = value_of(sort, part_of(input, line)).ok_or(Malformed(3))?;
    if line.end + 1 != input.len() {
        return Err(Malformed(4));
    }
    let text = text_part(sort, line);
    Ok(Request {
        code,
        ask: asked(value),
        text,
    })
}
