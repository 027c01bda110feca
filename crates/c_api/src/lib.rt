// The calls for C and Rust, as include/numfmt.h declares them. Each is the Rattle call with the answer as its number, and a board or
// a stream goes in and comes back by value. The crate c_api_c exports them.
#![tactic(auto)]

ghost use Rattle.std.specs.Prelude.{◌≡◌, length, []};
ghost use Rattle.formats.specs.Accept.{section_span};
ghost use Rattle.tables.specs.Rules.{passes};
ghost use Rattle.tables.specs.Calls.{prepared, table_after, showing, room_after};
ghost use Rattle.reasons.specs.Table.{table_why};
ghost use Rattle.boards.specs.Boards.{empty_board, put_row, room_put, clear_row};
ghost use Rattle.streams.specs.Streams.{started, feeding, ending, ending_room};
ghost use Rattle.c_numbers.specs.Numbers.{prepared_numbers, fed_numbers, finished_numbers, part_numbers, check_number, shown_numbers, why_numbers, put_numbers, cleared_numbers, number_ask, instant_ask, text_ask};

use boards::Board;
use c_numbers::{
    ClearedNumbers, FedNumbers, FinishedNumbers, PartNumbers, PreparedNumbers, PutNumbers,
    ShownNumbers, WhyNumbers, check_number, instant_ask, number_ask, part_numbers,
};
use checking::check;
use preparing::prepare;
use reasons::why;
use showing::show;
use spans::section_span;
use streams::Stream;
use values::{Value, asked};

pub fn numfmt_prepare(code: &[u16], table: &mut [u16]) -> PreparedNumbers
    ensures answer { result ≡ prepared_numbers (prepared code.now (length table.old)) }
    ensures table { table.new ≡ table_after code.now table.old }
{
    prepare(code, table).into()
}

// A stream to which nothing has come.
pub fn numfmt_stream_start() -> Stream
    ensures { result ≡ started }
{
    Stream::start()
}

// The stream with a part of a code behind what has come.
pub fn numfmt_stream_feed(stream: Stream, part: &[u16]) -> FedNumbers
    ensures { result ≡ fed_numbers (feeding stream part.now) }
{
    stream.feed(part).into()
}

// The stream when it has ended, and its code prepared.
pub fn numfmt_stream_end(stream: Stream, table: &mut [u16]) -> FinishedNumbers
    ensures result { result ≡ finished_numbers (ending stream (length table.old)) }
    ensures table { table.new ≡ ending_room stream table.old }
{
    stream.end(table).into()
}

// Section n of a code: where it stands in it.
pub fn numfmt_section(code: &[u16], n: u32) -> PartNumbers
    ensures { result ≡ part_numbers (section_span n code.now) }
{
    let s = section_span(code, n as usize);
    part_numbers(s.start, s.size)
}

// Whether the words are a table: what the calls that show test first.
pub fn numfmt_check(table: &[u16]) -> u16
    ensures { result ≡ check_number (passes table.now) }
{
    check_number(check(table))
}

pub fn numfmt_show_number(
    table: &[u16],
    coefficient: i64,
    scale: u32,
    room: &mut [u16],
) -> ShownNumbers
    ensures result { result ≡ shown_numbers (showing table.now (number_ask coefficient scale) [] (length room.old)) }
    ensures room { room.new ≡ room_after table.now (number_ask coefficient scale) [] room.old }
{
    show(table, number_ask(coefficient, scale), &table[..0], room).into()
}

pub fn numfmt_show_instant(
    table: &[u16],
    day: u32,
    millisecond: u32,
    room: &mut [u16],
) -> ShownNumbers
    ensures result { result ≡ shown_numbers (showing table.now (instant_ask day millisecond) [] (length room.old)) }
    ensures room { room.new ≡ room_after table.now (instant_ask day millisecond) [] room.old }
{
    show(table, instant_ask(day, millisecond), &table[..0], room).into()
}

pub fn numfmt_show_text(table: &[u16], text: &[u16], room: &mut [u16]) -> ShownNumbers
    ensures result { result ≡ shown_numbers (showing table.now text_ask text.now (length room.old)) }
    ensures room { room.new ≡ room_after table.now text_ask text.now room.old }
{
    show(table, asked(Value::Text), text, room).into()
}

pub fn numfmt_why_number(table: &[u16], coefficient: i64, scale: u32, size: usize) -> WhyNumbers
    ensures { result ≡ why_numbers (table_why table.now (number_ask coefficient scale) [] size) }
{
    why(table, number_ask(coefficient, scale), &table[..0], size).into()
}

pub fn numfmt_why_instant(table: &[u16], day: u32, millisecond: u32, size: usize) -> WhyNumbers
    ensures { result ≡ why_numbers (table_why table.now (instant_ask day millisecond) [] size) }
{
    why(table, instant_ask(day, millisecond), &table[..0], size).into()
}

pub fn numfmt_why_text(table: &[u16], text: &[u16], size: usize) -> WhyNumbers
    ensures { result ≡ why_numbers (table_why table.now text_ask text.now size) }
{
    why(table, asked(Value::Text), text, size).into()
}

pub fn numfmt_board_empty() -> Board
    ensures { result ≡ empty_board }
{
    Board::empty()
}

pub fn numfmt_board_put_number(
    board: Board,
    row: u32,
    table: &[u16],
    coefficient: i64,
    scale: u32,
    room: &mut [u16],
) -> PutNumbers
    ensures result { result ≡ put_numbers (put_row board row table.now (number_ask coefficient scale) [] (length room.old)) }
    ensures room { room.new ≡ room_put row table.now (number_ask coefficient scale) [] room.old }
{
    let ask = number_ask(coefficient, scale);
    board.put(row, table, ask, &table[..0], room).into()
}

pub fn numfmt_board_put_instant(
    board: Board,
    row: u32,
    table: &[u16],
    day: u32,
    millisecond: u32,
    room: &mut [u16],
) -> PutNumbers
    ensures result { result ≡ put_numbers (put_row board row table.now (instant_ask day millisecond) [] (length room.old)) }
    ensures room { room.new ≡ room_put row table.now (instant_ask day millisecond) [] room.old }
{
    let ask = instant_ask(day, millisecond);
    board.put(row, table, ask, &table[..0], room).into()
}

pub fn numfmt_board_put_text(
    board: Board,
    row: u32,
    table: &[u16],
    text: &[u16],
    room: &mut [u16],
) -> PutNumbers
    ensures result { result ≡ put_numbers (put_row board row table.now text_ask text.now (length room.old)) }
    ensures room { room.new ≡ room_put row table.now text_ask text.now room.old }
{
    board.put(row, table, asked(Value::Text), text, room).into()
}

pub fn numfmt_board_clear(board: Board, row: u32) -> ClearedNumbers
    ensures { result ≡ cleared_numbers (clear_row board row) }
{
    board.clear(row).into()
}
