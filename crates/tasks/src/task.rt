// One task.
ghost use Rattle.std.specs.Prelude.{◌≡◌};
ghost use Rattle.model.specs.State.{same_place};
ghost use Rattle.tasks.specs.View.{with_wait, waiter_of};
ghost use Rattle.tasks.specs.Places.{place_in};

use model::Side;

// A side of the object with an index.
#[derive(Clone, Copy)]
pub(crate) struct Place {
    pub(crate) side: Side,
    pub(crate) object: usize,
}

// What a task does: ready, or waiting with the index of its object. An index is a number less 1; indexes of tasks and objects
// are kept as bytes, since the whole state is copied by every call.
#[derive(Clone, Copy, PartialEq, Eq)]
pub enum Wait {
    Ready,
    OnSem(u8),
    Receiving(u8),
    Sending(u8, u32),
}

impl Wait {
    // Whether a task that does this waits at a place.
    pub(crate) fn is_at(self, place: Place) -> bool
        ensures { result ≡ same_place (place_in place) (waiter_of 0 self).place }
    {
        let Place { side, object } = place;
        match (self, side) {
            (Wait::OnSem(k), Side::OnSem)
            | (Wait::Receiving(k), Side::Receiving)
            | (Wait::Sending(k, _), Side::Sending) => usize::from(k) == object,
            _ => false,
        }
    }

    // The word that a sending task waits with; 0 of any other.
    pub(crate) fn word(self) -> u32
        ensures { result ≡ (waiter_of 0 self).word }
    {
        match self {
            Wait::Sending(_, word) => word,
            _ => 0,
        }
    }
}

// Domain (-1 to 32) and priority as bytes, for the same reason.
#[derive(Clone, Copy)]
pub struct Task {
    pub(crate) domain: i8,
    pub(crate) priority: u8,
    pub(crate) wait: Wait,
}

impl Task {
    // What an unused cell holds.
    pub(crate) const NONE: Task = Task {
        domain: 0,
        priority: 0,
        wait: Wait::Ready,
    };

    pub fn domain(self) -> i32
        ensures { result ≡ self.domain }
    {
        i32::from(self.domain)
    }

    pub fn priority(self) -> u32
        ensures { result ≡ self.priority }
    {
        u32::from(self.priority)
    }

    pub fn wait(self) -> Wait
        ensures { result ≡ self.wait }
    {
        self.wait
    }

    // The same task, which now does something else.
    pub(crate) fn with_wait(self, wait: Wait) -> Task
        ensures { result ≡ with_wait self wait }
    {
        Task { wait, ..self }
    }
}
