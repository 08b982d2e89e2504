// Answers each table of the standard input: the count m, how many entries (two bytes), how many assignments to list at most, and
// the entries, two bytes each. The lines have the cause, or the least assignment and the next ones in order. The tables are read one by
// one, at most 1000, up to the first that is cut off or has more than 169 entries.
#![tactic(auto)]

mod slots;

use std::io;
use testing::{Spaced, Stored};

// Kept: the form of collision_test's, by chance: each call has two numbers and a list of words.
#[derive(Drop)]
struct Case<'a> {
    count: u8,
    most: usize,
    table: &'a [u8],
}

fn main(rt: HostRuntime) -> io::Result<()> {
    let mut buffer = [0u8; 338];
    let mut space = [0u16; 169];
    for _ in 0..1000u32 {
        let Some(case) = next_case(&rt, &mut buffer)? else {
            return Ok(());
        };
        if let Some(table) = testing::read_words(case.table, &mut space) {
            report(&rt, case.count, table, case.most)?;
        }
    }
    Ok(())
}

// The next case, its table in the buffer; none where it is cut off, or where the buffer is too short for it.
fn next_case<'a>(rt: &impl Input, buffer: &'a mut [u8]) -> io::Result<Option<Case<'a>>> {
    let mut head = [0u8; 4];
    let mut head = Stored {
        rest: input::read(rt, &mut head)?,
    };
    let (Some(count), Some(size), Some(most)) = (head.byte(), head.word(), head.byte()) else {
        return Ok(None);
    };
    let size = 2 * usize::from(size);
    let Some(table) = buffer.get_mut(..size) else {
        return Ok(None);
    };
    let table = input::read(rt, table)?;
    if table.len() < size {
        return Ok(None);
    }
    Ok(Some(Case {
        count,
        most: usize::from(most),
        table,
    }))
}

// The count of an accepted table is at most 12.
fn report(rt: &impl Print, count: u8, table: &[u16], most: usize) -> io::Result<()> {
    let m = usize::from(count).min(12);
    match assignment::least_assignment(count, table) {
        Ok(Some(least)) => {
            println!(rt; "least {}:{}", least.sum, Spaced(&least.tasks[..m]))?;
            slots::list_next(rt, m, table, most)
        }
        Ok(None) => println!(rt; "none"),
        Err(cause) => println!(rt; "refused {}", u8::from(cause)),
    }
}
