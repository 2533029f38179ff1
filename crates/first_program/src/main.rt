// A program of one's own: a queue that is private to domain 1, and a send from each of two domains.
#![tactic(auto)]

use dataqueue::entry::QueueEntry;
use itron::limit::MIN_UNIT;
use kernel::state::State;
use model::Outcome;
use std::fmt;
use text::code::Code;

// What a call answers, as text; a first program needs no crate that writes the others' answers.
#[derive(Clone, Copy)]
struct Told(Outcome);

impl fmt::Display for Told {
    fn fmt<W: fmt::Write>(&self, f: &mut fmt::Formatter<W>) -> fmt::Result {
        match self.0 {
            Outcome::Code(number) => write!(f, "{}", Code(number)),
            Outcome::Waiting => write!(f, "waiting"),
        }
    }
}

fn main(rt: HostRuntime) {
    let table = State::fresh(2, MIN_UNIT).state;
    // A task's domain and its priority.
    let table = table.add_task(1, 1).state;
    let table = table.add_task(2, 1).state;
    let queue = QueueEntry {
        domain: 1,
        attribute: 0,
        capacity: 4,
        vector: None,
    };
    let gateway = table.add_queue(queue).state.close().state;
    let own = gateway.psnd_dtq(1, 1, 700);
    let outcome = Told(own.outcome);
    // A line that cannot be written is missing in the output, and the program ends as ever.
    let _ = println!(rt; "Task 1, of domain 1, sends 700 to queue 1: {outcome}");
    let other = own.state.psnd_dtq(2, 1, 870);
    let outcome = Told(other.outcome);
    let _ = println!(rt; "Task 2, of domain 2, sends 870 to queue 1: {outcome}");
}
