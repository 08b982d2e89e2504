// Answers each case of the standard input: how many bytes the sheet has and how many words, the task list, the sheet and the words.
// A line has document 01's numbers: the cause, 1 for yes, and the flowtime.
#![tactic(auto)]

ghost use Rattle.std.specs.Prelude.{◌<◌, OnSome, length};

use deck::Cause;
use std::io;
use testing::Stored;

#[derive(Drop)]
struct Case<'a> {
    tasks: [u8; 12],
    sheet: &'a [u8],
    words: &'a [u8],
}

// A case for which there is too little space is left out.
fn main(rt: HostRuntime) -> io::Result<()> {
    let mut buffer = [0u8; 262144];
    let mut space = [0u16; 4096];
    let mut input = Stored {
        rest: input::read(&rt, &mut buffer)?,
    };
    // Kept: the cases up to the end of the input, which counts no index; a loop over `from_fn` would have to be proved to end.
    while let Some(case) = next_case(&mut input) {
        if let Some(words) = testing::read_words(case.words, &mut space) {
            report(&rt, plan_check::check_plan(case.sheet, case.tasks, words))?;
        }
    }
    Ok(())
}

// The next case; one that is cut off is left out.
fn next_case<'a>(input: &mut Stored<'a>) -> Option<Case<'a>>
    ensures { OnSome result (length input.new.rest.now < length input.old.rest.now) }
{
    let size = usize::from(input.word()?);
    let count = usize::from(input.word()?);
    let tasks = *input.array::<12>()?;
    let sheet = input.bytes(size)?;
    let words = input.bytes(2 * count)?;
    Some(Case {
        tasks,
        sheet,
        words,
    })
}

fn report(rt: &impl Print, answer: Result<Option<usize>, Cause>) -> io::Result<()> {
    match answer {
        Ok(Some(flowtime)) => println!(rt; "0 1 {flowtime}"),
        Ok(None) => println!(rt; "0 0 0"),
        Err(cause) => println!(rt; "{} 0 0", u8::from(cause)),
    }
}
