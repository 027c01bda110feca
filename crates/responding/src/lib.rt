// Answers the program's input: reads the request, previews it, and writes the five lines.
#![tactic(auto)]

mod lines;

ghost use Rattle.std.specs.Prelude.{◌≡◌, ◌≤◌, length, take};
ghost use Rattle.lists.specs.Lists.{overlay};
ghost use Rattle.tables.specs.Calls.{written};
ghost use Rattle.requests.specs.Request.{refused, request, request_of};
ghost use Rattle.responding.specs.Answers.{Answers};
ghost use Rattle.responding.specs.Respond.{response_of, responded};

use answers::{Refusal, Refused};
use input::room;
use lines::{numbers_of, put_lines};
use preview::preview;
use requests::bytes::{narrow, put_bytes};
use requests::{part_of, read_request};
use values::Ask;

// How long the lines of an answer are, and the section that showed the value, 0 where none did; it is not in the lines.
#[derive(Clone, Copy, Debug, PartialEq, Eq)]
pub struct Responded {
    pub length: usize,
    pub section: u16,
}

// Puts the lines of a refusal.
fn respond_refused(r: Refused, out: &mut [u16]) -> Responded
    ensures { Answers (refused r.refusal r.place) out.old result out.new }
{
    Responded {
        length: put_lines(out, numbers_of(Err(r)), &[]),
        section: 0,
    }
}

// Previews a code and puts the lines of what it gives.
fn respond_to(code: &[u16], ask: Ask, text: &[u16], out: &mut [u16]) -> Responded
    ensures { Answers (request code.now ask text.now) out.old result out.new }
{
    let mut units: [u16; 4096] = room(0);
    let shown = match preview(code, ask, text, &mut units) {
        Ok(shown) => shown,
        Err(r) => return respond_refused(r, out),
    };
    let n = shown.length as usize;
    Responded {
        length: put_lines(out, numbers_of(Ok(shown)), &units[..n]),
        section: shown.section,
    }
}

// Puts the lines that the input is answered.
fn respond(input: &[u16], out: &mut [u16]) -> Responded
    ensures { Answers (request_of input.now) out.old result out.new }
{
    match read_request(input) {
        Ok(r) => respond_to(part_of(input, r.code), r.ask, part_of(input, r.text), out),
        Err(line) => respond_refused(
            Refused {
                refusal: Refusal::Line,
                place: line.0,
            },
            out,
        ),
    }
}

// Writes what the input is answered, where the room takes it; 4,236 bytes always do, which is the longest answer. Of a longer input
// the first 6,148 bytes are read: three lines of 2,048, their line feeds, and one byte more. The rest changes no answer.
pub fn respond_bytes(input: &[u8], out: &mut [u8]) -> Result<Responded, Refusal>
    ensures result { result ≡ responded input.now (length out.old) }
    ensures out { out.new ≡ written (response_of input.now) out.old }
    ensures short { length (response_of input.now) ≤ 4236 }
{
    let n = input.len().min(6148);
    let mut wide: [u16; 6148] = room(0);
    put_bytes(&mut wide, 0, &input[..n]);
    let mut lines: [u16; 4236] = room(0);
    let told = respond(&wide[..n], &mut lines);
    let k = told.length;
    if out.len() < k {
        return Err(Refusal::TextRoom);
    }
    narrow(&lines[..k], out);
    Ok(told)
}

// Answers the first `got` bytes.
fn respond_front(input: &[u8], got: usize, out: &mut [u8]) -> usize
    requires { 4236 ≤ length out.old }
    ensures size { result ≡ length (response_of (take got input.now)) }
    ensures out { out.new ≡ overlay (response_of (take got input.now)) out.old }
{
    let n = got.min(input.len());
    match respond_bytes(&input[..n], out) {
        Ok(r) => r.length,
        Err(_) => unreachable!(),
    }
}

// For the program, which can lend rooms of these lengths and no others: the first `got` bytes are its input, and every answer fits.
pub fn respond_input(input: &[u8; 6148], got: usize, out: &mut [u8; 4236]) -> usize
    ensures size { result ≡ length (response_of (take got input.now)) }
    ensures out { out.new ≡ overlay (response_of (take got input.now)) out.old }
{
    respond_front(input, got, out)
}
