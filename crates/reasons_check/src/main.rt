// Asks for each request on standard input why its value is shown as it is, and writes a line: the answer, and the reason's numbers as C has them.
// A request is the three lines of document 01's program and a fourth, `room=` with the room's length in digits: the three are lent to the
// reader of requests as they stand, so that only the fourth is read here, as a line like them. The code is prepared in 557 words, which take any
// table, and what is asked is a table always: 7 and 8 are never answered. The file stdout has what another implementation gives.
#![tactic(auto)]

mod lines;

ghost use Rattle.std.specs.Prelude.{◌≡◌};
ghost use Rattle.calendar.specs.Names.{units};
ghost use Rattle.grounds.specs.Why.{code_why};
ghost use Rattle.requests.specs.Lines.{field_of};
ghost use Rattle.requests.specs.Request.{request_of};
ghost use Rattle.reasons_check.specs.Asked.{request_why, room_why, block_why};

use answers::Refusal;
use c_numbers::WhyNumbers;
use grounds::Grounds;
use input::{line_end, read_full, room};
use lines::put_line;
use preparing::prepare;
use reasons::why;
use requests::bytes::{narrow, put_bytes};
use requests::digits::{is_digits, number_behind};
use requests::lines::line_at;
use requests::{part_of, read_request};
use std::io;
use values::Ask;

const LINE_FEED: u16 = b'\n' as u16;

// A room's length from which on every room takes every text: any larger one is read as it.
const LARGE: u64 = 1000000;

// The reason that the table of a code gives, which is the code's own; or the refusal of the code.
fn code_why(code: &[u16], ask: Ask, text: &[u16], size: usize) -> Result<Grounds, Refusal>
    ensures { result ≡ code_why code.now ask text.now size }
{
    let mut table: [u16; 557] = room(0);
    match prepare(code, &mut table) {
        Ok(words) => why(&table[..words as usize], ask, text, size),
        Err(r) => Err(r.refusal),
    }
}

// What three lines are answered in a room of this length.
fn request_why(lines: &[u16], size: usize) -> Result<Grounds, Refusal>
    ensures { result ≡ request_why (request_of lines.now) size }
{
    match read_request(lines) {
        Ok(r) => code_why(part_of(lines, r.code), r.ask, part_of(lines, r.text), size),
        Err(_) => Err(Refusal::Line),
    }
}

// The same, where the length is written in digits.
fn room_why(lines: &[u16], digits: &[u16]) -> Result<Grounds, Refusal>
    ensures { result ≡ room_why lines.now digits.now }
{
    if !is_digits(digits) {
        return Err(Refusal::Line);
    }
    request_why(lines, number_behind(0, digits, LARGE) as usize)
}

// What three lines and a fourth are answered.
fn block_why(lines: &[u16], fourth: &[u16]) -> Result<Grounds, Refusal>
    ensures { result ≡ block_why lines.now (field_of (units "room=") fourth.now) }
{
    match line_at(fourth, 0, b"room=") {
        Some(digits) => room_why(lines, part_of(fourth, digits)),
        None => Err(Refusal::Line),
    }
}

fn write_why(rt: &impl Print, w: WhyNumbers) -> io::Result<()> {
    let mut line: [u16; 239] = room(0);
    let n = put_line(&mut line, w);
    let mut bytes: [u8; 239] = room(0);
    narrow(&line[..n], &mut bytes);
    rt.write_all(&bytes[..n])
}

// Each four lines are a request.
fn answer_blocks(rt: &impl Print, input: &[u16]) -> io::Result<()> {
    let mut at = 0;
    while at < input.len() {
        let second = line_end(input, at, LINE_FEED);
        let third = line_end(input, second, LINE_FEED);
        let fourth = line_end(input, third, LINE_FEED);
        let end = line_end(input, fourth, LINE_FEED);
        let why = block_why(&input[at..fourth], &input[fourth..end]);
        write_why(rt, WhyNumbers::from(why))?;
        at = end;
    }
    Ok(())
}

fn main(rt: HostRuntime) -> io::Result<()> {
    // one byte more than is taken, to see that there is no more
    let mut bytes: [u8; 65537] = room(0);
    let got = read_full(&mut rt.stdin(), &mut bytes)?;
    if 65536 < got {
        return println!(rt; "input too long");
    }
    let mut input: [u16; 65536] = room(0);
    put_bytes(&mut input, 0, &bytes[..got]);
    answer_blocks(&rt, &input[..got])
}
