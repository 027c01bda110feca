// Writes dates and clocks. The file stdout has what Python's datetime gives, and for days 0 to 60 what document 01 says.
#![tactic(auto)]

ghost use Rattle.std.specs.Prelude.{◌<◌};

use std::io;
use tables::tags;
use values::{Day, Millisecond};

// The first n units, of which twelve are looked at.
fn write_units(rt: &impl Print, units: [u16; 12], n: usize) -> io::Result<()> {
    for unit in units.iter().take(n) {
        rt.write_all(&[(*unit % 256) as u8])?;
    }
    Ok(())
}

// What an item shows of an instant, on a 12-hour clock where `twelve` says so.
fn write_item(
    rt: &impl Print,
    twelve: bool,
    day: u32,
    ms: u32,
    tag: u16,
    argument: u16,
) -> io::Result<()>
    requires { (10 < tag) × (tag < 22) }
{
    let mut room = [0u16; 12];
    let moment = date_text::moment_of(twelve, true, Day(day), Millisecond(ms));
    let w = date_text::put_moment_item(&mut room, 0, tag, argument, &moment, 86400000);
    write_units(rt, room, w.end)
}

// The same with the argument 1, and a space.
fn write_part(rt: &impl Print, twelve: bool, day: u32, ms: u32, tag: u16) -> io::Result<()>
    requires { (10 < tag) × (tag < 22) }
{
    write_item(rt, twelve, day, ms, tag, 1)?;
    print!(rt; " ")
}

// Days 0 to 60, ends of months and years, and days out of range.
const DAYS: [u32; 28] = [
    0, 1, 31, 32, 59, 60, 61, 366, 367, 425, 426, 1521, 1522, 28086, 36525, 36585, 36586, 73109,
    73110, 146099, 146463, 146464, 182682, 292560, 292561, 2958465, 2958466, 4294967295,
];

// Days and milliseconds at ends of seconds, minutes, hours and half days.
const TIMES: [(u32, u32); 14] = [
    (0, 0),
    (0, 999),
    (0, 1000),
    (0, 59999),
    (0, 60000),
    (0, 3599999),
    (0, 3600000),
    (1, 43199999),
    (1, 43200000),
    (1, 46799999),
    (1, 46800000),
    (28086, 53760000),
    (60, 86399999),
    (2958465, 86399999),
];

fn show_date(rt: &impl Print, day: u32) -> io::Result<()> {
    let date = calendar::date_of(Day(day));
    let year = date.year;
    let month = date.month;
    let d = date.day;
    let weekday = date.weekday;
    print!(rt; "{day} {year} {month} {d} {weekday} ")?;
    write_item(rt, false, day, 0, tags::DAY, 4)?;
    print!(rt; " ")?;
    write_item(rt, false, day, 0, tags::MONTH, 4)?;
    println!(rt)
}

fn show_clock(rt: &impl Print, day: u32, ms: u32) -> io::Result<()> {
    print!(rt; "{ms} ")?;
    write_part(rt, false, day, ms, tags::HOUR)?;
    write_part(rt, false, day, ms, tags::MINUTE)?;
    write_part(rt, false, day, ms, tags::SECOND)?;
    let part = ms % 1000;
    print!(rt; "{part} ")?;
    write_part(rt, true, day, ms, tags::HOUR)?;
    write_part(rt, true, day, ms, tags::HALF_DAY)
}

fn show_time(rt: &impl Print, day: u32, ms: u32) -> io::Result<()> {
    show_clock(rt, day, ms)?;
    write_part(rt, false, day, ms, tags::ELAPSED_HOURS)?;
    write_part(rt, false, day, ms, tags::ELAPSED_MINUTES)?;
    write_item(rt, false, day, ms, tags::ELAPSED_SECONDS, 1)?;
    println!(rt)
}

fn main(rt: HostRuntime) -> io::Result<()> {
    for day in DAYS {
        show_date(&rt, day)?;
    }
    for k in 0..48u32 {
        show_date(&rt, k * 61637)?;
    }
    for (day, ms) in TIMES {
        show_time(&rt, day, ms)?;
    }
    for k in 0..10u32 {
        show_time(&rt, k * 300000, k * 8639999)?;
    }
    Ok(())
}
