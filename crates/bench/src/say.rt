// How answers are told: a code or `waiting`, then a call's word and released task where they are not 0.
use crate::names::{Code, Listed};
use kernel::state::Answer;
use model::{Info, Outcome};
use std::io;

// A section's heading, behind an empty line.
pub fn heading(rt: &impl Print, title: &str) -> io::Result<()> {
    println!(rt; "\n{title}")
}

// The rest of a call's line.
pub fn reply(rt: &impl Print, answer: &Answer) -> io::Result<()> {
    match answer.outcome {
        Outcome::Code(code) => print!(rt; ": {}", Code(code))?,
        Outcome::Waiting => rt.print(": waiting")?,
    }
    let word = answer.word;
    if word != 0 {
        print!(rt; ", word {word}")?;
    }
    let released = answer.released;
    if released.task != 0 {
        print!(rt; ", releases task {}", released.task)?;
    }
    if released.word != 0 {
        print!(rt; " with word {}", released.word)?;
    }
    Ok(())
}

// What a refer tells of a semaphore, at the end of its line.
pub fn semaphore(rt: &impl Print, info: Info) -> io::Result<()> {
    println!(rt;
        ", first waiter {}, count {}, vector {}",
        info.first,
        info.amount,
        Listed(info.vector)
    )
}

// What a refer tells of a queue.
pub fn queue(rt: &impl Print, info: Info) -> io::Result<()> {
    println!(rt;
        ", first sender {}, first receiver {}, words {}, vector {}",
        info.first,
        info.second,
        info.amount,
        Listed(info.vector)
    )
}
