// Each call for C, called with lent slices, numbers, boards and streams and nothing required: none of them asks anything of its caller.
#![tactic(auto)]

use boards::Board;
use c_api::{
    numfmt_board_clear, numfmt_board_empty, numfmt_board_put_instant, numfmt_board_put_number,
    numfmt_board_put_text, numfmt_check, numfmt_prepare, numfmt_section, numfmt_show_instant,
    numfmt_show_number, numfmt_show_text, numfmt_stream_end, numfmt_stream_feed,
    numfmt_stream_start, numfmt_why_instant, numfmt_why_number, numfmt_why_text,
};
use c_numbers::{
    ClearedNumbers, FedNumbers, FinishedNumbers, PartNumbers, PreparedNumbers, PutNumbers,
    ShownNumbers, WhyNumbers,
};
use streams::Stream;

fn prepare(code: &[u16], table: &mut [u16]) -> PreparedNumbers {
    numfmt_prepare(code, table)
}

fn section(code: &[u16], n: u32) -> PartNumbers {
    numfmt_section(code, n)
}

fn check(table: &[u16]) -> u16 {
    numfmt_check(table)
}

fn show_number(table: &[u16], coefficient: i64, scale: u32, room: &mut [u16]) -> ShownNumbers {
    numfmt_show_number(table, coefficient, scale, room)
}

fn show_instant(table: &[u16], day: u32, millisecond: u32, room: &mut [u16]) -> ShownNumbers {
    numfmt_show_instant(table, day, millisecond, room)
}

fn show_text(table: &[u16], text: &[u16], room: &mut [u16]) -> ShownNumbers {
    numfmt_show_text(table, text, room)
}

fn why_number(table: &[u16], coefficient: i64, scale: u32, size: usize) -> WhyNumbers {
    numfmt_why_number(table, coefficient, scale, size)
}

fn why_instant(table: &[u16], day: u32, millisecond: u32, size: usize) -> WhyNumbers {
    numfmt_why_instant(table, day, millisecond, size)
}

fn why_text(table: &[u16], text: &[u16], size: usize) -> WhyNumbers {
    numfmt_why_text(table, text, size)
}

fn board_empty() -> Board {
    numfmt_board_empty()
}

fn board_put_number(
    board: Board,
    row: u32,
    table: &[u16],
    coefficient: i64,
    scale: u32,
    room: &mut [u16],
) -> PutNumbers {
    numfmt_board_put_number(board, row, table, coefficient, scale, room)
}

fn board_put_instant(
    board: Board,
    row: u32,
    table: &[u16],
    day: u32,
    millisecond: u32,
    room: &mut [u16],
) -> PutNumbers {
    numfmt_board_put_instant(board, row, table, day, millisecond, room)
}

fn board_put_text(
    board: Board,
    row: u32,
    table: &[u16],
    text: &[u16],
    room: &mut [u16],
) -> PutNumbers {
    numfmt_board_put_text(board, row, table, text, room)
}

fn board_clear(board: Board, row: u32) -> ClearedNumbers {
    numfmt_board_clear(board, row)
}

fn stream_start() -> Stream {
    numfmt_stream_start()
}

fn stream_feed(stream: Stream, part: &[u16]) -> FedNumbers {
    numfmt_stream_feed(stream, part)
}

fn stream_end(stream: Stream, table: &mut [u16]) -> FinishedNumbers {
    numfmt_stream_end(stream, table)
}
