// Answers each case of the standard input: how many bytes the sheet has (two bytes), how many words of workspace (four), how many
// words of output (two), the word that fills the output before the call (two), the word that fills the workspace (four), 1 where the
// workspace stays as the case before left it (two), and the sheet. A line has every field of the answer, and the output's words up to
// the last that was changed.
// The cases are the rounds 1 to 6 of document 01, 5 and 6 at every node limit; sheets of many kinds with plans, none and spent at 0 to
// 2048 nodes; single sheets at many node limits up to one more than they need; up to 12 carriers on little room (many assignments of
// one sum), grids of one row and of one column, finishes above 200, grids up to 32 by 32; each cause alone and with later ones,
// workspace and output exact and one word short; and the sheet of no bytes with workspace and output of several lengths, each time
// before a refused sheet that finds the workspace as it was left.
#![tactic(auto)]

ghost use Rattle.std.specs.Prelude.{◌<◌, OnSome, length};

use deck::SearchAnswer;
use std::io;
use testing::{Output, Spaced, Stored};

// What stands in a line without a plan.
// Kept: 255 is document 01's number of an entry that has no task.
const NO_TASKS: [u8; 12] = [255; 12];

// Kept: `keeps_workspace` is beside values that count whether it is true or not, and says of none that it is there.
#[derive(Drop)]
struct Case<'a> {
    room: usize,
    places: usize,
    out_filler: u16,
    work_filler: u32,
    keeps_workspace: bool,
    sheet: &'a [u8],
}

// The workspace is that of a sheet of 32 by 32 with horizon 255, up to 3 goals a task and node limit 1, and of small sheets with
// node limit 2048.
fn main(rt: HostRuntime) -> io::Result<()> {
    let mut buffer = [0u8; 131072];
    let mut work = [0u32; 1053184];
    let mut input = Stored {
        rest: input::read(&rt, &mut buffer)?,
    };
    while let Some(case) = next_case(&mut input) {
        answer(&rt, case, &mut work)?;
    }
    Ok(())
}

// The next case; one that is cut off is left out.
fn next_case<'a>(input: &mut Stored<'a>) -> Option<Case<'a>>
    ensures { OnSome result (length input.new.rest.now < length input.old.rest.now) }
{
    let size = usize::from(input.word()?);
    let room = input.double_word()? as usize;
    let places = usize::from(input.word()?);
    let out_filler = input.word()?;
    let work_filler = input.double_word()?;
    let keeps_workspace = input.word()? == 1;
    let sheet = input.bytes(size)?;
    Some(Case {
        room,
        places,
        out_filler,
        work_filler,
        keeps_workspace,
        sheet,
    })
}

// A case for which there is too little space is left out.
fn answer(rt: &impl Print, case: Case, work: &mut [u32]) -> io::Result<()> {
    let mut out = [case.out_filler; 3100];
    if let Some(work) = work.get_mut(..case.room)
        && let Some(out) = out.get_mut(..case.places)
    {
        call(rt, &case, work, out)?;
    }
    Ok(())
}

fn call(rt: &impl Print, case: &Case, work: &mut [u32], out: &mut [u16]) -> io::Result<()> {
    if !case.keeps_workspace {
        work.fill(case.work_filler);
    }
    let answer = search::search(case.sheet, work, out);
    let written = Output(testing::changed(out, case.out_filler));
    match answer {
        Ok(answer) => found(rt, answer, written),
        Err(cause) => {
            let change = testing::workspace_change(work, case.work_filler);
            println!(rt;
                "refused {}{change} flowtime 0 nodes 0 bound 0 tasks{}{written}",
                u8::from(cause),
                Spaced(&NO_TASKS)
            )
        }
    }
}

fn found(rt: &impl Print, answer: SearchAnswer, written: Output) -> io::Result<()> {
    match answer {
        SearchAnswer::Plan {
            tasks,
            flowtime,
            nodes,
            bound,
        } => {
            let tasks = Spaced(&tasks);
            println!(rt;
                "plan flowtime {flowtime} nodes {nodes} bound {bound} tasks{tasks}{written}"
            )
        }
        SearchAnswer::NoPlan { nodes } => {
            let tasks = Spaced(&NO_TASKS);
            println!(rt; "none flowtime 0 nodes {nodes} bound 0 tasks{tasks}{written}")
        }
        SearchAnswer::Spent { nodes, bound } => {
            let tasks = Spaced(&NO_TASKS);
            println!(rt; "spent flowtime 0 nodes {nodes} bound {bound} tasks{tasks}{written}")
        }
    }
}
