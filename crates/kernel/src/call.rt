// Any call, by what is asked of which object or of the caller's level: the one dispatcher.
ghost use Rattle.model.specs.Calls.{call, op_of};
ghost use Rattle.kernel.specs.Valid.{Valid};
ghost use Rattle.kernel.specs.Promises.{Does};

use crate::state::{Answer, State};
use model::Request;

impl State {
    pub fn call(mut self, caller: i32, request: Request) -> Answer
        requires { Valid self }
        ensures { Does self (call caller (op_of request)) result }
    {
        match request {
            Request::Semaphore(id, asked) => self.on_semaphore(caller, id, asked),
            Request::Queue(id, asked) => self.on_queue(caller, id, asked),
            Request::Extended(asked) => self.on_level(caller, asked),
        }
    }
}
