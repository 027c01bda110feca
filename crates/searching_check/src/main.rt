// Drives the search over lists that are not the year table. For every eighth entry the answers and turns for the days before, on and
// behind its number are written; the file stdout has what a program in Python gives, which goes through the whole list.
#![tactic(auto)]

use searching::Turn;
use std::io;

// First entry, step, `at`, `more`.
const LISTS: [(u32, u32, usize, u32); 11] = [
    (0, 1, 401, 0),
    (5, 1, 200, 1000),
    (0, 1, 1, 4294966000),
    (0, 1, 400, 4294966000),
    (4294966895, 1, 401, 0),
    (1, 365, 1, 1),
    (100, 7, 256, 3),
    (0, 1000000, 401, 0),
    (0, 10000000, 401, 0),
    (36526, 0, 401, 0),
    (0, 0, 300, 146463),
];

// Entry k is first + step * k, and `more` from entry `at` on.
fn list(first: u32, step: u32, at: usize, more: u32) -> [u32; 401] {
    let mut numbers = [0; 401];
    let mut number = first;
    for k in 0..401usize {
        let added = if at <= k { more } else { 0 };
        numbers[k] = number.wrapping_add(added);
        number = number.wrapping_add(step);
    }
    numbers
}

// The entry that the search names, or `-` for none, and the turns; nothing where it does not come to an answer.
fn write_answer(rt: &impl Print, numbers: &[u32], day: u32) -> io::Result<()> {
    let mut turn = searching::start(day);
    for turns in 0..20u64 {
        match turn {
            Turn::Read(k, s) => {
                let Some(number) = numbers.get(k as usize) else {
                    return Ok(());
                };
                turn = searching::told(s, *number);
            }
            Turn::Found(k) => return print!(rt; " {k} {turns}"),
            Turn::Nothing => return print!(rt; " - {turns}"),
        }
    }
    Ok(())
}

fn show_list(rt: &impl Print, numbers: [u32; 401]) -> io::Result<()> {
    for j in 0..51usize {
        let k = 8 * j;
        let number = numbers[k];
        print!(rt; " {k} {number}")?;
        write_answer(rt, &numbers, number.saturating_sub(1))?;
        write_answer(rt, &numbers, number)?;
        write_answer(rt, &numbers, number.saturating_add(1))?;
        println!(rt)?;
    }
    Ok(())
}

fn main(rt: HostRuntime) -> io::Result<()> {
    for (first, step, at, more) in LISTS {
        show_list(&rt, list(first, step, at, more))?;
    }
    Ok(())
}
