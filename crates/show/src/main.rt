// Answers the request on standard input: three lines, a code, a kind and a value.
#![tactic(auto)]

use input::{read_full, room};
use responding::respond_input;
use std::io;

fn main(rt: HostRuntime) -> io::Result<()> {
    // 6,148 bytes: three lines of 2,048, their line feeds, and one byte more. So a longer input is seen to be malformed, and what is
    // not read changes no answer.
    let mut input: [u8; 6148] = room(0);
    let got = read_full(&mut rt.stdin(), &mut input)?;
    let mut output: [u8; 4236] = room(0);
    let n = respond_input(&input, got, &mut output);
    rt.write_all(&output[..n])
}
