// Reads stored sheets, each after its length in two bytes, and writes a line for each: the cause and, of an accepted sheet, what the
// reader and the accessors hand back, in parts: the header, the directory's pairs, the starts, of each task the goals as bytes and as
// places, the numbers of free and of blocked places, and the workspace. Of a refused sheet: zeros in place of header and pairs, and
// the goals of task 0 as they are handed back.
#![tactic(auto)]

ghost use Rattle.std.specs.Prelude.{◌<◌, OnSome, length};

use deck::{Carrier, MOST_PAIRS, Reading, Stretch, Task};
use std::io;
use testing::{Spaced, Stored};

// What stands in the line of a refused sheet, which has no reading.
const NO_READING: Reading = Reading {
    width: 0,
    height: 0,
    count: 0,
    horizon: 0,
    limit: 0,
    pairs: [Stretch { offset: 0, size: 0 }; MOST_PAIRS],
};

fn header(rt: &impl Print, r: &Reading) -> io::Result<()> {
    let values = [r.width, r.height, r.count, r.horizon, r.limit];
    rt.print(Spaced(&values))
}

// All pairs that there can be: those past the last are zeros.
// Kept: `print!` in a loop, here and below: how many numbers a line has the sheet says, and they are no slice.
fn pairs(rt: &impl Print, r: &Reading) -> io::Result<()> {
    print!(rt; " /")?;
    for pair in r.pairs {
        print!(rt; " {} {}", pair.offset, pair.size)?;
    }
    Ok(())
}

// Kept: the form of `tasks`, since each asks an accessor of the sheet for one number after the other.
fn starts(rt: &impl Print, s: &[u8], m: usize) -> io::Result<()> {
    print!(rt; " /")?;
    for i in (0..m).map(Carrier) {
        print!(rt; " {}", sheet::start(s, i))?;
    }
    Ok(())
}

// The goals as bytes and as places, and the last place once more.
fn goals(rt: &impl Print, s: &[u8], j: Task) -> io::Result<()> {
    let bytes = Spaced(sheet::task_goals(s, j));
    print!(rt; " /{bytes} /")?;
    // Kept: the goals by their numbers, as the accessor that is tried here takes them.
    for goal in (0..sheet::goal_count(s, j)).map(|k| sheet::goal(s, j, k)) {
        print!(rt; " {goal}")?;
    }
    print!(rt; " {}", sheet::last_goal(s, j))
}

// Of each task, and of one more than there are, which has no goals.
fn tasks(rt: &impl Print, s: &[u8], m: usize) -> io::Result<()> {
    for j in (0..=m).map(Task) {
        goals(rt, s, j)?;
    }
    Ok(())
}

// How many of 1024 places have the grid byte b.
fn marked(s: &[u8], b: u8) -> usize {
    (0..1024).filter(|v| sheet::grid_byte(s, *v) == b).count()
}

// How many of 1024 places are free; how many are blocked, and how many are lanes to the north, east, south and west.
fn places(rt: &impl Print, s: &[u8]) -> io::Result<()> {
    let free = (0..1024).filter(|v| sheet::is_free(s, *v)).count();
    let marks = [1, 2, 3, 4, 5].map(|b| marked(s, b));
    print!(rt; " / {free}{}", Spaced(&marks))
}

fn accepted(rt: &impl Print, s: &[u8], r: &Reading) -> io::Result<()> {
    header(rt, r)?;
    pairs(rt, r)?;
    starts(rt, s, r.count)?;
    tasks(rt, s, r.count)?;
    places(rt, s)?;
    print!(rt; " {}", sheet::workspace(s))
}

fn refused(rt: &impl Print, s: &[u8]) -> io::Result<()> {
    header(rt, &NO_READING)?;
    pairs(rt, &NO_READING)?;
    print!(rt; " /{}", Spaced(sheet::task_goals(s, Task(0))))
}

fn line(rt: &impl Print, s: &[u8]) -> io::Result<()> {
    match sheet::read(s) {
        Ok(r) => {
            print!(rt; "0")?;
            accepted(rt, s, &r)?;
        }
        Err(cause) => {
            print!(rt; "{}", u8::from(cause))?;
            refused(rt, s)?;
        }
    }
    println!(rt; "")
}

// The next sheet; one that is cut off is left out.
fn next_sheet<'a>(input: &mut Stored<'a>) -> Option<&'a [u8]>
    ensures { OnSome result (length input.new.rest.now < length input.old.rest.now) }
{
    let size = usize::from(input.word()?);
    input.bytes(size)
}

fn main(rt: HostRuntime) -> io::Result<()> {
    let mut buffer = [0u8; 65536];
    let mut input = Stored {
        rest: input::read(&rt, &mut buffer)?,
    };
    while let Some(sheet) = next_sheet(&mut input) {
        line(&rt, sheet)?;
    }
    Ok(())
}
