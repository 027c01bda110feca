// Where the sections of a code stand in it.
#![tactic(auto)]

ghost use Rattle.std.specs.Prelude.{◌≡◌, ◌+◌, ◌≤◌, length};
ghost use Rattle.formats.specs.Tokens.{lex};
ghost use Rattle.formats.specs.Accept.{fine, placed_of, semicolons, span_by, section_span, section_part};
ghost use Rattle.lexing.specs.Buffer.{semicolons_in};
ghost use Rattle.examining.specs.Examine.{Buffered};
ghost use Rattle.spans.specs.Span.{SpanIs, start_behind, end_before, unit_place};

use examining::{Room, examine};
use lexing::buffer::semicolon_place;
use marks::Mark;

// A section of a code: the place of its first unit, and how many units it has.
#[derive(Clone, Copy)]
pub struct SectionSpan {
    pub start: usize,
    pub size: usize,
}

// The empty part at the start.
const EMPTY_START: SectionSpan = SectionSpan { start: 0, size: 0 };

// The place behind the semicolon before section n, or the start of the code.
fn start_behind(tokens: &[Mark], n: usize) -> usize
    requires { start_behind 0 n (semicolons_in tokens.now) ≤ 254 }
    ensures { result ≡ start_behind 0 n (semicolons_in tokens.now) }
{
    if n == 0 {
        return 0;
    }
    semicolon_place(tokens, n - 1) + 1
}

// The place of the semicolon behind section n, or behind the last section the end of the code.
fn end_before(tokens: &[Mark], last: usize, n: usize, end: usize) -> usize
    requires { last ≡ length (semicolons_in tokens.now) }
    ensures { result ≡ end_before end n (semicolons_in tokens.now) }
{
    if n < last {
        return semicolon_place(tokens, n);
    }
    end
}

// Where section n stands, of a code whose tokens these are and whose last section is `last`.
fn span_between(code: &[u16], tokens: &[Mark], last: usize, n: usize) -> SectionSpan
    requires buffered { Buffered code.now tokens.now }
    requires last_value { (last ≡ length (semicolons (placed_of (lex code.now)))) × (n ≤ last) }
    ensures { SpanIs code.now (span_by fine n code.now) result }
{
    let start = start_behind(tokens, n);
    let end = end_before(tokens, last, n, code.len());
    SectionSpan {
        start,
        size: end - start,
    }
}

// Where section n of a code stands. A refused code and a missing section have the empty part at the start.
pub fn section_span(code: &[u16], n: usize) -> SectionSpan
    ensures start { result.start ≡ (section_span n code.now).start }
    ensures size { result.size ≡ (section_span n code.now).size }
    ensures inside { result.start + result.size ≤ length code.now }
{
    let mut room = Room::new();
    let Ok(e) = examine(code, &mut room) else {
        return EMPTY_START;
    };
    if e.sections <= n {
        return EMPTY_START;
    }
    span_between(code, &room.tokens[..e.tokens], e.sections - 1, n)
}

// Section n of a code, as a part of it; of a refused code or a missing section the empty part at the start.
pub fn section_of(code: &[u16], n: usize) -> &[u16]
    ensures part { result.now ≡ section_part n code.now }
    ensures place { result.ref_ptr ≡ unit_place code.entry.ref_ptr (section_span n code.now).start }
{
    let s = section_span(code, n);
    let start = s.start;
    let end = start + s.size;
    &code[start..end]
}
