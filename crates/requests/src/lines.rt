// Lines of a lent run of units: a name, what stands behind it, and a line feed.
ghost use Rattle.std.specs.Prelude.{◌≡◌, ◌≤◌, length, leb};
ghost use Rattle.std.specs.List.{list_all};
ghost use Rattle.requests.specs.Lines.{is_line};
ghost use Rattle.requests.specs.Reads.{LineAt};

use lexing::scan::{position_of, starts_with};

// The unit that ends a line.
const LINE_FEED: u16 = b'\n' as u16;

// The most bytes of a line before its line feed.
const LONGEST: usize = 2048;

const LAST_ASCII: u16 = 127;

// A part of the lent units: where it starts, and where the units behind it start.
#[derive(Clone, Copy)]
pub struct Part {
    pub start: usize,
    pub end: usize,
}

// Every unit is ASCII.
fn is_ascii(us: &[u16]) -> bool
    ensures { result ≡ list_all (λ u. leb u 127) us.now }
{
    us.iter().all(|u| *u <= LAST_ASCII)
}

// The units are an ASCII line with this name, short enough.
fn is_line(line: &[u16], name: &[u8]) -> bool
    ensures { result ≡ is_line name.now line.now }
{
    (line.len() <= LONGEST) & is_ascii(line) & starts_with(line, name)
}

// What stands behind the name of the line at a place, where it is a line with this name.
pub fn line_at(input: &[u16], at: usize, name: &[u8]) -> Option<Part>
    requires { at ≤ length input.now }
    ensures { LineAt input.now at name.now result }
{
    let end = at + position_of(&input[at..], LINE_FEED)?;
    if !is_line(&input[at..end], name) {
        return None;
    }
    Some(Part {
        start: at + name.len(),
        end,
    })
}
