// Previews a code: prepares it in a table of its own, and shows a value through that table in the lent room.
#![tactic(auto)]

ghost use Rattle.std.specs.Prelude.{◌≡◌, length};
ghost use Rattle.lists.specs.Lists.{overlay};
ghost use Rattle.preview.specs.Preview.{previewed, preview_text};

use answers::{Refused, Shown};
use preparing::prepare;
use showing::show;
use values::Ask;

// Room for any table, made by a function of its own: only its length matters to the proofs.
fn table_room() -> [u16; 557]
    ensures { 557 ≡ length result }
{
    [0; 557]
}

// Shows a value by a code in the room. A refusal, of the code or of the value, leaves the room as it is; that of the value has place 0.
pub fn preview(code: &[u16], ask: Ask, text: &[u16], room: &mut [u16]) -> Result<Shown, Refused>
    ensures result { result ≡ previewed code.now ask text.now (length room.old) }
    ensures room { room.new ≡ overlay
        (preview_text code.now ask text.now (length room.old)) room.old }
{
    let mut table = table_room();
    let words = prepare(code, &mut table)?;
    show(&table[..words as usize], ask, text, room).map_err(|refusal| Refused { refusal, place: 0 })
}
