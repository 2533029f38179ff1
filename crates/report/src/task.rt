// The lines of tasks.
ghost use Rattle.kernel.specs.Valid.{Valid};

use kernel::state::State;
use std::io::Write;
use std::{fmt, io};
use tasks::task::Wait;

// The number of an index.
fn number_of(index: u8) -> u16 {
    u16::from(index) + 1
}

// What a task waits for.
#[derive(Clone, Copy)]
struct Waits(Wait);

impl fmt::Display for Waits {
    fn fmt<W: fmt::Write>(&self, f: &mut fmt::Formatter<W>) -> fmt::Result {
        match self.0 {
            Wait::Ready => write!(f, "ready"),
            Wait::OnSem(object) => write!(f, "sem={}", number_of(object)),
            Wait::Receiving(object) => write!(f, "receiving={}", number_of(object)),
            Wait::Sending(object, word) => {
                write!(f, "sending={} word={word}", number_of(object))
            }
        }
    }
}

pub(crate) fn write_task<W: Write>(out: &mut W, state: &State, number: usize) -> io::Result<()>
    requires { Valid state.now }
{
    let task = state.task(number);
    let domain = task.domain();
    let priority = task.priority();
    let level = state.level(number);
    let waits = Waits(task.wait());
    writeln!(
        out,
        "  task {number} domain={domain} {waits} level={level} priority={priority}"
    )
}
