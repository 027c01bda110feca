// Prepares a code: tests it, and writes its table.
#![tactic(auto)]

mod heads;

ghost use Rattle.std.specs.Prelude.{◌≡◌, length};
ghost use Rattle.tables.specs.Calls.{prepared, table_after};

use answers::{Refusal, Refused};
use examining::{Room, examine};
use heads::put_table;
use tables::heads::WORDS;

// Prepares a code, and tells how many words its table has: the table is written only where it fits.
pub fn prepare(code: &[u16], table: &mut [u16]) -> Result<u32, Refused>
    ensures answer { result ≡ prepared code.now (length table.old) }
    ensures table { table.new ≡ table_after code.now table.old }
{
    let mut room = Room::new();
    let e = examine(code, &mut room)?;
    let size = 1 + WORDS * e.sections + e.words;
    if table.len() < size {
        return Err(Refused {
            refusal: Refusal::TableRoom,
            place: 0,
        });
    }
    put_table(table, &room.drafts[..e.sections], &room.items[..e.words]);
    Ok(size as u32)
}
