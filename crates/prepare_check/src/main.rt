// Prepares each line of standard input as a code, and writes for it a line: the answer, the place, how many words, and the words.
// A line begins with `!` where a word was changed that was to be kept, or where a table room one word too short was not refused.
// The file stdout has what another implementation of document 01 gives.
#![tactic(auto)]

mod lines;

ghost use Rattle.std.specs.Prelude.{◌≡◌, ◌≤◌, length};
ghost use Rattle.tables.specs.Calls.{prepared};

use answers::{DONE, Refusal, Refused, number};
use input::{line_end, read_full, room};
use lines::put_line;
use preparing::prepare;
use requests::bytes::{narrow, put_bytes};
use std::io;

const LINE_FEED: u16 = b'\n' as u16;

// What the table rooms are filled with, to see which words were written.
const FILLING: u16 = 43690;

fn is_filling(words: &[u16]) -> bool {
    words.iter().all(|word| *word == FILLING)
}

fn write_line(
    rt: &impl Print,
    sound: bool,
    answer: u16,
    place: u32,
    words: &[u16],
) -> io::Result<()>
    requires { length words.now ≤ 557 }
{
    let mut line: [u16; 16384] = room(0);
    let n = put_line(&mut line, sound, answer, place, words);
    let mut bytes: [u8; 16384] = room(0);
    narrow(&line[..n], &mut bytes);
    rt.write_all(&bytes[..n])
}

// Whether a table room one word too short is refused, and keeps its words.
fn refuses_short(code: &[u16], words: usize) -> bool
    requires { words ≤ 557 }
{
    if words == 0 {
        return true;
    }
    let mut table: [u16; 557] = room(FILLING);
    let p = prepare(code, &mut table[..words - 1]);
    let refused = Refused {
        refusal: Refusal::TableRoom,
        place: 0,
    };
    is_filling(&table) & (p == Err(refused))
}

// Writes what preparing a code returned and left in its table room.
fn report(rt: &impl Print, code: &[u16], p: Result<u32, Refused>, table: &[u16]) -> io::Result<()>
    requires { (p ≡ prepared code.now (length table.now)) × (length table.now ≡ 557) }
{
    match p {
        Ok(n) => {
            let (words, rest) = table.split_at(n as usize);
            let sound = is_filling(rest) & refuses_short(code, words.len());
            write_line(rt, sound, DONE, 0, words)
        }
        Err(r) => write_line(rt, is_filling(table), number(r.refusal), r.place, &[]),
    }
}

// A code, without the line feed of its line.
fn prepare_line(rt: &impl Print, code: &[u16]) -> io::Result<()> {
    let mut table: [u16; 557] = room(FILLING);
    let p = prepare(code, &mut table);
    report(rt, code, p, &table)
}

// Each line of the input; units behind the last line feed are a line too.
fn prepare_lines(rt: &impl Print, input: &[u16]) -> io::Result<()> {
    let mut at = 0;
    while at < input.len() {
        let end = line_end(input, at, LINE_FEED);
        let line = &input[at..end];
        prepare_line(rt, line.strip_suffix(&[LINE_FEED]).unwrap_or(line))?;
        at = end;
    }
    Ok(())
}

fn main(rt: HostRuntime) -> io::Result<()> {
    // one byte more than is taken, to see that there is no more
    let mut bytes: [u8; 65537] = room(0);
    let got = read_full(&mut rt.stdin(), &mut bytes)?;
    if 65536 < got {
        return println!(rt; "input too long");
    }
    let mut input: [u16; 65536] = room(0);
    put_bytes(&mut input, 0, &bytes[..got]);
    prepare_lines(&rt, &input[..got])
}
