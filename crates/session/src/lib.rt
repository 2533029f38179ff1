// Commands from an input, one to a line, made on the kernel; each with its answer on the output (docs/replay.md).
#![tactic(auto)]

use itron::limit::MIN_UNIT;
use kernel::state::State;
use output::Output;
use session::Session;
use std::io;
use std::io::{Read, Write};

pub mod flaw;
pub mod hand_out;
pub mod output;
pub mod perform;
pub mod session;

// Makes the commands of an input, from the empty table for n = 0 and unit 1 on; an error if an answer could not be written.
pub fn run<R: Read, W: Write + Drop>(input: &mut R, to: W) -> io::Result<()> {
    let mut session = Session::begin(State::fresh(0, MIN_UNIT).state);
    session.run(input, &mut Output::new(to))
}
