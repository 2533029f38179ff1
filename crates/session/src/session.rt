// A run over an input: bytes come in by blocks, each whole line is made, and the output goes out before the program reads on.
ghost use Rattle.std.specs.Prelude.{◌≤◌};
ghost use Rattle.command.specs.Lines.{line_size};
ghost use Rattle.kernel.specs.Valid.{Valid};

use crate::flaw::write_flaw;
use crate::output::Output;
use crate::perform::perform;
use command::flaw::Flaw;
use command::line::{Gathered, Line};
use command::parse::Command;
use command::request::{Asked, requested};
use kernel::state::State;
use std::io;
use std::io::{Read, Write};

// The bytes that are read at once, at most.
const BLOCK: usize = 16_384;

// The table and its tasks, and the line so far.
#[derive(Clone, Copy)]
pub struct Session {
    pub state: State,
    pub line: Line,
}

// The echo of a line's text and the arrow before its answer.
fn write_echo<W: Write>(out: &mut Output<W>, text: &[u8]) {
    let _ = out.write_all(text);
    let _ = write!(out, " -> ");
}

// Makes the command of a line's text, or tells why it is not made. What is said has neither echo nor arrow.
fn obey<W: Write>(
    out: &mut Output<W>,
    state: State,
    text: &[u8],
    command: Result<Command, Flaw>,
) -> State
    requires { Valid state }
    ensures { Valid result }
{
    match command {
        Ok(Command::Say) => perform(out, state, text, Command::Say),
        Ok(command) => {
            write_echo(out, text);
            perform(out, state, text, command)
        }
        Err(flaw) => {
            write_echo(out, text);
            let _ = write_flaw(out, text, flaw);
            let _ = writeln!(out);
            state
        }
    }
}

impl Session {
    pub fn begin(state: State) -> Session
        requires { Valid state }
        ensures valid { Valid result.state }
        ensures within { result.line.count ≤ line_size }
    {
        Session {
            state,
            line: Line::empty(),
        }
    }

    // Makes the line so far, if it asks for anything.
    fn make<W: Write>(&mut self, out: &mut Output<W>, ended: bool)
        requires { Valid self.old.state }
        ensures valid { Valid self.new.state }
        ensures within { self.new.line.count ≤ line_size }
    {
        let Asked { command, echo } = requested(self.line, ended);
        if let Some(command) = command {
            self.state = obey(out, self.state, echo.as_slice(), command);
        }
        self.line = Line::empty();
    }

    // Takes the bytes of a block: each line that ends there is made.
    fn take<W: Write>(&mut self, out: &mut Output<W>, block: &[u8])
        requires { Valid self.old.state }
        ensures valid { Valid self.new.state }
        ensures within { self.old.line.count ≤ line_size → self.new.line.count ≤ line_size }
    {
        let mut from = 0;
        // Each round but the last takes a line's LF.
        for _ in 0..=block.len() {
            let Gathered { line, next } = self.line.gathered(block, from);
            self.line = line;
            let Some(next) = next else {
                break;
            };
            self.make(out, true);
            from = next;
        }
    }

    // Makes the lines of an input to its end, or up to the block whose answers could not be written; the last line may lack its LF.
    pub fn run<R: Read, W: Write>(&mut self, input: &mut R, out: &mut Output<W>) -> io::Result<()>
        requires { Valid self.old.state }
        ensures valid { Valid self.new.state }
        ensures within { self.old.line.count ≤ line_size → self.new.line.count ≤ line_size }
    {
        let mut block = [0u8; BLOCK];
        // A proved loop has to end, and nothing says that the input does: no run uses so many blocks up.
        for _ in 0..u64::MAX {
            out.flush()?;
            // A read that fails counts as the end of the input.
            let count = input.read(&mut block).unwrap_or(0);
            if count == 0 {
                break;
            }
            self.take(out, &block[..count]);
        }
        if !self.line.is_empty() {
            self.make(out, false);
        }
        out.flush()
    }
}
