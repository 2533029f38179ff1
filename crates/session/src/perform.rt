// A command is made on the kernel and its answer written: the one place where the kernel is called. The output keeps a failure of its own
// and takes the rest in, so that a command is made whatever becomes of its answer.
ghost use Rattle.kernel.specs.Valid.{Valid};

use crate::hand_out::write_hand_out;
use crate::output::Output;
use access::audit::audit;
use command::entry::Entry;
use command::parse::Command;
use command::word::behind_first;
use kernel::state::{Answer, Entered, State};
use model::Request;
use report::dump::write_dump;
use report::names::Code;
use report::show::{Answered, Audited};
use std::io::Write;

// Of fresh, an entry and closing the code is all that is told.
fn entered<W: Write>(out: &mut Output<W>, answer: Entered) -> State
    requires { Valid answer.state }
    ensures { Valid result }
{
    let _ = writeln!(out, "{}", Code(answer.code));
    answer.state
}

fn answered<W: Write>(out: &mut Output<W>, request: Request, answer: Answer) -> State
    requires { Valid answer.state }
    ensures { Valid result }
{
    let told = Answered {
        request,
        answer: &answer,
    };
    let _ = writeln!(out, "{told}");
    answer.state
}

// Each kind of entry has its own operation of the kernel.
fn enter(state: State, entry: Entry) -> Entered
    requires { Valid state }
    ensures { Valid result.state }
{
    match entry {
        Entry::Task(domain, priority) => state.add_task(domain, priority),
        Entry::Semaphore(given) => state.add_semaphore(given),
        Entry::Queue(given) => state.add_queue(given),
        Entry::Region(given) => state.add_region(given),
    }
}

// Makes the command of a line's text and writes its answer and the line's end. The state after it.
pub fn perform<W: Write>(out: &mut Output<W>, state: State, text: &[u8], command: Command) -> State
    requires { Valid state }
    ensures { Valid result }
{
    let _ = match command {
        Command::Fresh(n, unit) => return entered(out, State::fresh(n, unit)),
        Command::Entry(entry) => return entered(out, enter(state, entry)),
        Command::Close => return entered(out, state.close()),
        Command::Call(task, request) => return answered(out, request, state.call(task, request)),
        Command::Say => {
            let _ = out.write_all(behind_first(text));
            writeln!(out)
        }
        Command::Probe {
            domain,
            base,
            size,
            wishes,
        } => writeln!(out, "{}", Code(state.prb_mem(domain, base, size, wishes))),
        Command::HandOut(asked) => write_hand_out(out, state, asked),
        Command::Audit(n, vector) => writeln!(out, "{}", Audited(audit(vector, n))),
        Command::Dump => write_dump(out, &state),
    };
    state
}
