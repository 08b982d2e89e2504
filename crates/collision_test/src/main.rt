// Answers each case of the standard input: m, H, how many words, and the words. A line has document 01's numbers: the cause, 1 for
// a collision, its kind, t, i, j and its two places.
#![tactic(auto)]

ghost use Rattle.std.specs.Prelude.{◌<◌, OnSome, length};

use deck::{Cause, Collision};
use std::io;
use testing::Stored;

// Kept, here and in the reader that follows: the form of assignment_test's, by chance: each call has two numbers and a list of words.
#[derive(Drop)]
struct Case<'a> {
    count: u8,
    horizon: u8,
    words: &'a [u8],
}

// A case for which there is too little space is left out.
fn main(rt: HostRuntime) -> io::Result<()> {
    let mut buffer = [0u8; 262144];
    let mut space = [0u16; 4096];
    let mut input = Stored {
        rest: input::read(&rt, &mut buffer)?,
    };
    // Kept: the cases up to the end of the input, which counts no index; a loop over `from_fn` would have to be proved to end.
    while let Some(case) = next_case(&mut input) {
        if let Some(words) = testing::read_words(case.words, &mut space) {
            report(
                &rt,
                collision::first_collision(case.count, case.horizon, words),
            )?;
        }
    }
    Ok(())
}

// The next case; one that is cut off is left out.
fn next_case<'a>(input: &mut Stored<'a>) -> Option<Case<'a>>
    ensures { OnSome result (length input.new.rest.now < length input.old.rest.now) }
{
    let count = input.byte()?;
    let horizon = input.byte()?;
    let size = usize::from(input.word()?);
    let words = input.bytes(2 * size)?;
    Some(Case {
        count,
        horizon,
        words,
    })
}

fn report(rt: &impl Print, answer: Result<Option<Collision>, Cause>) -> io::Result<()> {
    match answer {
        Ok(Some(Collision::Place { t, i, j, u })) => {
            println!(rt; "0 1 0 {t} {} {} {u} 0", i.0, j.0)
        }
        Ok(Some(Collision::Move { t, i, j, u, v })) => {
            println!(rt; "0 1 1 {t} {} {} {u} {v}", i.0, j.0)
        }
        Ok(None) => println!(rt; "0 0 0 0 0 0 0 0"),
        Err(cause) => println!(rt; "{} 0 0 0 0 0 0 0", u8::from(cause)),
    }
}
