// Rounds numbers and writes, a line each: sign, forty digits, places used, and r for rounding, g for General, w for General too wide.
// The file stdout has what Python's decimal computes with ROUND_HALF_UP.
#![tactic(auto)]

ghost use Rattle.std.specs.Prelude.{◌≤◌, ◌<◌};

use std::io;
use values::Number;

// c times 10^up / 10^down, to so many decimals.
#[derive(Clone, Copy)]
struct Row {
    c: i64,
    up: u32,
    down: u32,
    decimals: u32,
    ghost within: { (up ≤ 10) × (decimals ≤ 15) },
}

impl Row {
    fn new(c: i64, up: u32, down: u32, decimals: u32) -> Row
        requires { (up ≤ 10) × (decimals ≤ 15) }
    {
        Row {
            c,
            up,
            down,
            decimals,
        }
    }
}

// The digit of n at 10^1 or 10^0, as ASCII.
fn digit(n: usize) -> u8 {
    b'0' + (n % 10) as u8
}

// The column of the digit at place k: the point stands between place 15 and place 14.
fn column(k: usize) -> usize
    requires { k < 40 }
    ensures { result ≤ 41 }
{
    if k < 15 { 41 - k } else { 40 - k }
}

// The forty digits, the highest first, with a point behind the whole part.
fn with_point(line: [u8; 48], digits: [u8; 40]) -> [u8; 48] {
    let mut out = line;
    out[26] = b'.';
    for k in 0..40 {
        out[column(k)] = b'0' + digits[k] % 10;
    }
    out
}

fn write_line(rt: &impl Print, negative: bool, digits: [u8; 40], mark: u8) -> io::Result<()> {
    let mut line = with_point([b' '; 48], digits);
    line[0] = if negative { b'-' } else { b'+' };
    let used = figures::places_used(digits);
    line[43] = digit(used / 10);
    line[44] = digit(used);
    line[46] = mark;
    line[47] = b'\n';
    rt.write_all(&line)
}

fn write_refused(rt: &impl Print) -> io::Result<()> {
    let mut line = [b'!'; 48];
    line[47] = b'\n';
    rt.write_all(&line)
}

// Writes a row. The digits passed are not zeros: they must be cleared.
fn show(rt: &impl Print, r: Row) -> io::Result<()> {
    let x = Number {
        coefficient: r.c,
        scale: 0,
    };
    match figures::take_number(x) {
        Some(s) => {
            let mut exact = true;
            let digits = figures::round([7; 40], s.magnitude, r.up, r.down, r.decimals, &mut exact);
            write_line(rt, s.negative, digits, b'r')
        }
        None => write_refused(rt),
    }
}

// c / 10^scale as General.
fn show_general(rt: &impl Print, c: i64, scale: u32) -> io::Result<()> {
    let x = Number {
        coefficient: c,
        scale,
    };
    match figures::take_number(x) {
        Some(s) => {
            let mark = if figures::general_too_wide(s.magnitude, s.scale) {
                b'w'
            } else {
                b'g'
            };
            let mut exact = true;
            let digits = figures::round_general([7; 40], s.magnitude, s.scale, &mut exact);
            write_line(rt, s.negative, digits, mark)
        }
        None => write_refused(rt),
    }
}

// Ends of ranges, halves and ties, and what is not taken.
fn ends() -> [Row; 30] {
    [
        Row::new(5, 0, 1, 0),
        Row::new(-5, 0, 1, 0),
        Row::new(4, 0, 1, 0),
        Row::new(15, 0, 1, 0),
        Row::new(25, 0, 1, 0),
        Row::new(-5, 0, 2, 1),
        Row::new(-3, 0, 1, 0),
        Row::new(12000, 0, 0, 0),
        Row::new(12200000, 0, 6, 1),
        Row::new(3, 2, 0, 0),
        Row::new(999999999999999, 10, 0, 15),
        Row::new(999999999999999, 0, 15, 0),
        Row::new(999999999999999, 0, 15, 14),
        Row::new(999999999999999, 0, 30, 15),
        Row::new(999999999999999, 10, 0, 0),
        Row::new(5, 0, 16, 15),
        Row::new(49, 0, 17, 15),
        Row::new(5, 0, 15, 14),
        Row::new(0, 10, 30, 15),
        Row::new(1, 0, 30, 0),
        Row::new(500000000000000, 0, 15, 0),
        Row::new(499999999999999, 0, 15, 0),
        Row::new(1, 10, 10, 0),
        Row::new(1, 9, 10, 0),
        Row::new(1, 8, 10, 0),
        Row::new(-999999999999999, 0, 20, 3),
        Row::new(1000000000000000, 0, 0, 0),
        Row::new(-1000000000000000, 0, 0, 0),
        Row::new(-9223372036854775808, 0, 0, 0),
        Row::new(1, 0, 31, 0),
    ]
}

fn drawn() -> [Row; 34] {
    [
        Row::new(-872654836050436, 2, 10, 8),
        Row::new(4888792334, 0, 16, 13),
        Row::new(-500, 6, 23, 14),
        Row::new(548499, 0, 18, 15),
        Row::new(-4, 0, 0, 2),
        Row::new(412520848230, 4, 14, 8),
        Row::new(40665, 2, 6, 7),
        Row::new(-5914734281191, 2, 23, 10),
        Row::new(-994217703, 6, 10, 5),
        Row::new(876646549999999, 2, 23, 13),
        Row::new(307657858, 6, 10, 5),
        Row::new(-47, 0, 12, 10),
        Row::new(912291683, 10, 21, 1),
        Row::new(68, 8, 15, 10),
        Row::new(-4209365916, 0, 11, 10),
        Row::new(35886388449, 2, 4, 0),
        Row::new(571725500000000, 4, 16, 3),
        Row::new(50000000000000, 4, 22, 4),
        Row::new(-75414563, 0, 5, 5),
        Row::new(2593792, 4, 12, 6),
        Row::new(-26001255582, 0, 6, 8),
        Row::new(871206, 4, 20, 12),
        Row::new(-3015623603, 0, 13, 2),
        Row::new(293340182632, 4, 13, 9),
        Row::new(4, 10, 17, 6),
        Row::new(8935073689, 4, 15, 14),
        Row::new(523284500000000, 8, 29, 12),
        Row::new(-9500000000, 4, 20, 7),
        Row::new(-4465550, 8, 11, 1),
        Row::new(4, 6, 14, 7),
        Row::new(797, 4, 14, 11),
        Row::new(-8088, 8, 22, 14),
        Row::new(-9993607, 10, 24, 9),
        Row::new(-9947249320, 6, 16, 8),
    ]
}

// Coefficients and scales, of ends of ranges, ties, and what is not taken.
const GENERAL: [(i64, u32); 42] = [
    (0, 0),
    (0, 15),
    (1, 0),
    (-1, 0),
    (15, 1),
    (-3, 1),
    (123456789012345, 14),
    (123456789012345, 5),
    (123456789012345, 6),
    (123456789012345, 4),
    (123456789012345, 3),
    (999999999999999, 15),
    (999999999999999, 14),
    (999999999999999, 6),
    (999999999999999, 5),
    (999999999999999, 4),
    (999999999999999, 0),
    (99999999995, 1),
    (999999999949999, 4),
    (999999999950000, 4),
    (99999999999, 0),
    (100000000000, 0),
    (999999999994, 1),
    (999999999995, 1),
    (5, 10),
    (49, 11),
    (1, 15),
    (12000, 3),
    (-120500, 4),
    (99999999999, 2),
    (100, 15),
    (5, 16),
    (-9223372036854775808, 0),
    (1000000000000000, 0),
    (65437138668, 4),
    (894222, 10),
    (159191078415073, 3),
    (709821294576, 1),
    (203449619, 11),
    (3589073, 9),
    (88697392158022, 5),
    (145054516642630, 8),
];

fn show_rows(rt: &impl Print, rows: &[Row]) -> io::Result<()> {
    for r in rows {
        show(rt, *r)?;
    }
    Ok(())
}

fn main(rt: HostRuntime) -> io::Result<()> {
    show_rows(&rt, &ends())?;
    show_rows(&rt, &drawn())?;
    for (c, scale) in GENERAL {
        show_general(&rt, c, scale)?;
    }
    Ok(())
}
