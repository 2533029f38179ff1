// What a call on an object of any kind gives.
ghost use Rattle.std.specs.Prelude.{◌≡◌};
ghost use Rattle.tasks.specs.Effects.{done_with, refused_with, ended_with};

use crate::state::Tasks;
use crate::wait::Ended;
use itron::code::E_OK;
use model::{Info, Reply};

// The reply, what a refer tells, and after the call the tasks and the records of the object's kind.
#[derive(Clone, Copy)]
pub struct Effect<R> {
    pub reply: Reply,
    pub info: Info,
    pub tasks: Tasks,
    pub records: R,
}

impl<R> Effect<R> {
    // E_OK with a word, nobody released.
    pub fn done(tasks: Tasks, records: R, word: u32) -> Effect<R>
        ensures { result ≡ done_with tasks records word }
    {
        Effect {
            reply: Reply::plain(E_OK, word),
            info: Info::NONE,
            tasks,
            records,
        }
    }

    // A refusal: its code, with everything as it was.
    pub fn refused(tasks: Tasks, records: R, code: i32) -> Effect<R>
        ensures { result ≡ refused_with tasks records code }
    {
        Effect {
            reply: Reply::plain(code, 0),
            info: Info::NONE,
            tasks,
            records,
        }
    }

    // An end on the tasks, with the records beside it.
    pub fn ended(end: Ended, records: R) -> Effect<R>
        ensures { result ≡ ended_with end records }
    {
        Effect {
            reply: end.reply,
            info: Info::NONE,
            tasks: end.tasks,
            records,
        }
    }
}
