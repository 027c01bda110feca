// A board of sixty-four rows, each empty or with the length and colour last shown there, and the width kept beside them.
#![tactic(auto)]

ghost use Rattle.std.specs.Prelude.{◌≡◌, ◌<◌, max, map, length, fold, zip};
ghost use Rattle.boards.specs.Boards.{row_count, empty_board, length_in, with_row, put_row, room_put, clear_row};

use answers::{Refusal, Shown};
use showing::show;
use values::Ask;

// A row is filled where its number in `filled` is not 0, and empty where it is 0; an empty row has length 0 and colour 0. (A number and
// no bool: C lends boards too, and there a byte may be any.) `widest` is the greatest length of the filled rows, 0 where all are empty.
// The rows stand in three arrays, as include/numfmt.h has them.
#[repr(C)]
#[derive(Clone, Copy)]
pub struct Board {
    pub filled: [u8; 64],
    pub length: [u32; 64],
    pub colour: [u16; 64],
    pub widest: u32,
}

// What is in a row of a board.
#[derive(Clone, Copy)]
pub struct Row {
    pub filled: u8,
    pub length: u32,
    pub colour: u16,
}

// What putting a row hands back: the whole board, and what showing returned.
#[derive(Clone, Copy)]
pub struct PutRow {
    pub board: Board,
    pub shown: Result<Shown, Refusal>,
}

// What clearing a row hands back.
#[derive(Clone, Copy)]
pub struct ClearedRow {
    pub board: Board,
    pub cleared: Result<(), Refusal>,
}

const ROWS: u32 = 64;

const EMPTY: Row = Row {
    filled: 0,
    length: 0,
    colour: 0,
};

// The length of what is shown in a row.
#[tactic(auto, unfolding(crate::specs::Boards::length_in))]
fn length_in(filled: u8, length: u32) -> u32
    ensures { result ≡ length_in filled length }
{
    if filled == 0 { 0 } else { length }
}

impl Board {
    pub fn empty() -> Board
        ensures { result ≡ empty_board }
    {
        Board {
            filled: [0; 64],
            length: [0; 64],
            colour: [0; 64],
            widest: 0,
        }
    }

    // The greatest length of the rows that are filled. (Each row's length is told first and then compared, so that several rows are
    // compared at once.)
    fn widest_row(&self) -> u32
        ensures { result ≡ fold max 0 (map (λ row. length_in row.0 row.1) (zip self.now.filled self.now.length)) }
    {
        self.filled
            .iter()
            .zip(&self.length)
            .map(|(filled, length)| length_in(*filled, *length))
            .fold(0, u32::max)
    }

    // Puts this into row k, and the width right.
    fn store(&mut self, k: usize, row: Row)
        requires { k < row_count }
        ensures { self.new ≡ with_row self.old k row }
    {
        self.filled[k] = row.filled;
        self.length[k] = row.length;
        self.colour[k] = row.colour;
        self.widest = self.widest_row();
    }

    // Shows a value through the words lent as a table, as `show` does, and puts the row's length and colour into the board. A row above 63
    // is answered 16 before all else. A refusal hands the board back as it is.
    pub fn put(
        mut self,
        row: u32,
        table: &[u16],
        ask: Ask,
        text: &[u16],
        room: &mut [u16],
    ) -> PutRow
        ensures result { result ≡ put_row self row table.now ask text.now (length room.old) }
        ensures room { room.new ≡ room_put row table.now ask text.now room.old }
    {
        if ROWS <= row {
            return PutRow {
                board: self,
                shown: Err(Refusal::Row),
            };
        }
        let shown = show(table, ask, text, room);
        if let Ok(s) = shown {
            self.store(
                row as usize,
                Row {
                    filled: 1,
                    length: s.length,
                    colour: s.colour,
                },
            );
        }
        PutRow { board: self, shown }
    }

    // Empties a row; a row above 63 is answered 16.
    pub fn clear(mut self, row: u32) -> ClearedRow
        ensures { result ≡ clear_row self row }
    {
        if ROWS <= row {
            return ClearedRow {
                board: self,
                cleared: Err(Refusal::Row),
            };
        }
        self.store(row as usize, EMPTY);
        ClearedRow {
            board: self,
            cleared: Ok(()),
        }
    }
}
