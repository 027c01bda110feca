// The tokens of a code in a lent run of marks.
ghost use Rattle.std.specs.Prelude.{◌≡◌, ◌≤◌, length, get_or};
ghost use Rattle.lexing.specs.Buffer.{Fills, semicolons_in};

use super::next;
use marks::Mark;
use marks::forms::SEMICOLON;

// How many tokens there are, and how many of them are semicolons.
#[derive(Clone, Copy)]
pub struct Filled {
    pub tokens: usize,
    pub semicolons: usize,
}

// Fills the run with the tokens of the code, or answers the place of the first broken one. A byte counts their semicolons: with a
// usize preparing takes 12 to 37 instructions more.
pub fn fill(code: &[u16], tokens: &mut [Mark]) -> Result<Filled, usize>
    requires { (length code.now ≤ 254) × (254 ≤ length tokens.old) }
    ensures { Fills code.now tokens.old tokens.new result }
{
    let mut at: usize = 0;
    let mut n: usize = 0;
    let mut semicolons: u8 = 0;
    while at < code.len() {
        let Some(step) = next(code, at) else {
            return Err(at);
        };
        tokens[n] = Mark {
            form: step.form,
            argument: step.argument,
            start: at as u16,
        };
        n += 1;
        at += step.more + 1;
        if step.form == SEMICOLON {
            semicolons += 1;
        }
    }
    Ok(Filled {
        tokens: n,
        semicolons: usize::from(semicolons),
    })
}

// The place of semicolon k of the tokens, counted from 0, or 0.
pub fn semicolon_place(tokens: &[Mark], k: usize) -> usize
    ensures { result ≡ get_or (semicolons_in tokens.now) k 0 }
{
    let mut left = k;
    for m in tokens {
        if m.form == SEMICOLON {
            if left == 0 {
                return usize::from(m.start);
            }
            left -= 1;
        }
    }
    0
}
