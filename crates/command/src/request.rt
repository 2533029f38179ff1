// A whole line: its command and its echo.
ghost use Rattle.std.specs.Prelude.{◌≤◌};
ghost use Rattle.command.specs.Lines.{line_size};

use crate::flaw::Flaw;
use crate::line::Line;
use crate::parse::{Command, parse};
use crate::text::{long, text_of};

// What a line asks, or why it is not made, and its text; None for a blank line.
#[derive(Clone, Copy)]
pub struct Asked {
    pub command: Option<Result<Command, Flaw>>,
    pub echo: Line,
}

// What a line asks, given whether an LF ended it: a CR goes only before an LF. An enum of two would be longer than this flag.
pub fn requested(line: Line, ended: bool) -> Asked
    ensures { result.echo.count ≤ line_size }
{
    if line.is_full() {
        return Asked {
            command: Some(Err(Flaw::LongLine)),
            echo: long(),
        };
    }
    let line = if ended { line.without_cr() } else { line };
    let echo = text_of(line.as_slice());
    Asked {
        command: parse(echo.as_slice()),
        echo,
    }
}
