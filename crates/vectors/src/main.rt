// Answers many requests on standard input, three lines each: the examples of document 01 and of the papers that it names, as far
// as they fall inside its narrowing, and others. Behind the five lines of each stands the section that showed the value. The file
// stdout has what another implementation of document 01 gives.
#![tactic(auto)]

use input::{line_end, read_full, room};
use responding::respond_bytes;
use std::io;

fn respond_block(rt: &impl Print, block: &[u8]) -> io::Result<()> {
    let mut output: [u8; 4236] = room(0);
    match respond_bytes(block, &mut output) {
        Ok(r) => {
            let section = r.section;
            rt.write_all(&output[..r.length])?;
            println!(rt; "section={section}")
        }
        Err(_) => unreachable!(),
    }
}

// Each three lines are a request.
fn respond_blocks(rt: &impl Print, input: &[u8]) -> io::Result<()> {
    let mut at = 0;
    while at < input.len() {
        let second = line_end(input, at, b'\n');
        let third = line_end(input, second, b'\n');
        let end = line_end(input, third, b'\n');
        respond_block(rt, &input[at..end])?;
        at = end;
    }
    Ok(())
}

fn main(rt: HostRuntime) -> io::Result<()> {
    // one byte more than is taken, to see that there is no more
    let mut input: [u8; 131073] = room(0);
    let got = read_full(&mut rt.stdin(), &mut input)?;
    if 131072 < got {
        return println!(rt; "input too long");
    }
    respond_blocks(&rt, &input[..got])
}
