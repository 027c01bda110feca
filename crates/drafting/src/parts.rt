// A part of a code's tokens, beside the code.
ghost use Rattle.std.specs.Prelude.{◌≤◌, length};

use marks::Mark;

// Tokens that stand one behind the other in a code. A code has 254 units at most, and so no more tokens.
#[derive(Clone, Copy)]
pub struct Part<'a> {
    pub code: &'a [u16],
    pub marks: &'a [Mark],
    pub ghost short: { length code.now ≤ 254 },
    pub ghost few: { length marks.now ≤ 254 },
}
