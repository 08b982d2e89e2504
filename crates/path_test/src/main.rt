// Answers each case of the standard input: two-byte numbers (how many bytes the sheet has, how many words the list of records, the
// carrier, the task, how many words of workspace in four bytes, how many words of output, and the word that fills both before the
// call), the sheet, and the records. A line has the answer, and the output's words up to the last that was changed.
// The cases are grids of one row, of one column and of other shapes up to 32 by 32, tasks of 1 to 8 goals (starts on goals, equal goals in
// succession), lists of 0 to 4097 records that bar the least path so far or are another carrier's, waits and places barred on the last
// goal up to the horizon, sheets without a path, each cause alone and with later ones, and the sheet of no bytes with records, workspace
// and output of several lengths.
#![tactic(auto)]

ghost use Rattle.std.specs.Prelude.{◌<◌, OnSome, length};

use deck::{Carrier, Task};
use std::io;
use testing::{Output, Stored};

#[derive(Drop)]
struct Case<'a> {
    carrier: Carrier,
    task: Task,
    room: usize,
    places: usize,
    filler: u16,
    sheet: &'a [u8],
    records: &'a [u8],
}

// The workspace is that of a sheet of 32 by 32 with horizon 255, up to 3 goals a task and node limit 1.
fn main(rt: HostRuntime) -> io::Result<()> {
    let mut buffer = [0u8; 524288];
    let mut work = [0u32; 1053184];
    let mut input = Stored {
        rest: input::read(&rt, &mut buffer)?,
    };
    while let Some(case) = next_case(&mut input) {
        answer(&rt, case, &mut work)?;
    }
    Ok(())
}

// The next case; one that is cut off is left out.
fn next_case<'a>(input: &mut Stored<'a>) -> Option<Case<'a>>
    ensures { OnSome result (length input.new.rest.now < length input.old.rest.now) }
{
    let size = usize::from(input.word()?);
    let count = usize::from(input.word()?);
    let carrier = Carrier(usize::from(input.word()?));
    let task = Task(usize::from(input.word()?));
    let room = input.double_word()? as usize;
    let places = usize::from(input.word()?);
    let filler = input.word()?;
    let sheet = input.bytes(size)?;
    let records = input.bytes(2 * count)?;
    Some(Case {
        carrier,
        task,
        room,
        places,
        filler,
        sheet,
        records,
    })
}

// A case for which there is too little space is left out.
fn answer(rt: &impl Print, case: Case, work: &mut [u32]) -> io::Result<()> {
    let mut space = [0u16; 20490];
    let mut out = [case.filler; 300];
    if let Some(records) = testing::read_words(case.records, &mut space)
        && let Some(work) = work.get_mut(..case.room)
        && let Some(out) = out.get_mut(..case.places)
    {
        call(rt, &case, records, work, out)?;
    }
    Ok(())
}

fn call(
    rt: &impl Print,
    case: &Case,
    records: &[u16],
    work: &mut [u32],
    out: &mut [u16],
) -> io::Result<()> {
    let filler = 65537 * u32::from(case.filler);
    work.fill(filler);
    let answer = path::least_path(case.sheet, case.carrier, case.task, work, out, records);
    let written = Output(testing::changed(out, case.filler));
    match answer {
        Ok(Some(finish)) => println!(rt; "found {finish}{written}"),
        Ok(None) => println!(rt; "none{written}"),
        Err(cause) => {
            let change = testing::workspace_change(work, filler);
            println!(rt; "refused {}{change}{written}", u8::from(cause))
        }
    }
}
