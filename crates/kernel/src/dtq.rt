// Data queues: their entry, the calls on them (both sends, forced send, both receives, refer and set-vector), and what a dump shows of one.
ghost use Rattle.std.specs.Prelude.{◌≡◌, get_or};
ghost use Rattle.model.specs.State.{queue_at};
ghost use Rattle.model.specs.Checks.{passed};
ghost use Rattle.model.specs.Acts.{own, refer, set_vector};
ghost use Rattle.model.specs.Queues.{act_of, room};
ghost use Rattle.model.specs.Table.{check_entry, enter, queue};
ghost use Rattle.model.specs.Calls.{call, on_queue};
ghost use Rattle.model.specs.declared.Patience.TheVariants.{Polling, Forever};
ghost use Rattle.model.specs.declared.dtq.QueueCall.TheVariants.{Send as send, Receive as receive, ForcedSend as forced_send};
ghost use Rattle.dataqueue.specs.Effects.{acted};
ghost use Rattle.dataqueue.specs.View.{info_of};
ghost use Rattle.kernel.specs.View.{view_of};
ghost use Rattle.kernel.specs.Valid.{Valid};
ghost use Rattle.kernel.specs.Answers.{answered};
ghost use Rattle.kernel.specs.Inside.{with_tasks, with_queues, check_of, coded};
ghost use Rattle.kernel.specs.Promises.{Enters, Does, Tells};

use crate::check::coded;
use crate::state::{Answer, Entered, State};
use access::vector::Vector;
use dataqueue::call::{act, operation};
use dataqueue::entry::QueueEntry;
use dataqueue::state::{QueueInfo, Queues};
use itron::error::Error;
use itron::limit::MAX_QUEUES;
use model::Patience;
use model::dtq::{QueueCall, QueueRequest};
use tasks::effect::Effect;

impl State {
    #[tactic(auto, using(crate::proofs::Back::queues_held))]
    pub(crate) fn check_queue(self, given: QueueEntry) -> Result<(), Error>
        requires { Valid self }
        ensures { result ≡ passed (check_entry (view_of self) (queue given.domain given.attribute given.capacity given.vector)) }
    {
        let queues = self.queues;
        self.opening(queues.len(), MAX_QUEUES, self.owns(given.domain))?;
        queues.check(given.attribute, given.capacity)
    }

    // As for every kind: a form that all share would take a closure over the state for these four lines.
    pub fn add_queue(mut self, given: QueueEntry) -> Entered
        requires { Valid self }
        ensures { Enters self (enter (view_of self) (queue given.domain given.attribute given.capacity given.vector)) result }
    {
        let checked = self.check_queue(given);
        if checked.is_err() {
            return self.enter(checked);
        }
        let queues = self.queues;
        self.queues = queues.register(given);
        self.enter(Ok(()))
    }

    // What a request does to the tasks and the queues.
    pub(crate) fn queue_effect(self, caller: i32, id: i32, request: QueueRequest) -> Effect<Queues>
        requires { Valid self }
        ensures { result ≡ acted self.tasks self.queues (act_of request) (coded (check_of room self caller id (act_of request))) }
    {
        let tasks = self.tasks;
        let queues = self.queues;
        let check = self.check(caller, queues.find(id), operation(request));
        act(tasks, queues, coded(check), request)
    }

    // A call's effect on the tasks and the data queues.
    pub(crate) fn with_queues(self, effect: Effect<Queues>) -> Answer
        ensures { result ≡ answered effect.reply effect.info (with_queues (with_tasks self effect.tasks) effect.records) }
    {
        let reply = effect.reply;
        let outcome = reply.outcome;
        let released = reply.released;
        let info = effect.info;
        let tasks = effect.tasks;
        let queues = effect.records;
        Answer {
            outcome,
            word: reply.word,
            released,
            info,
            state: State {
                tasks,
                queues,
                ..self
            },
        }
    }

    // Any request of a data queue. The calls below, each under its name in μITRON, do not use it: measured, what several of them share copies the whole state.
    pub(crate) fn on_queue(mut self, caller: i32, id: i32, request: QueueRequest) -> Answer
        requires { Valid self }
        ensures { Does self (call caller (on_queue id (act_of request))) result }
    {
        self.with_queues(self.queue_effect(caller, id, request))
    }

    // Poll-send.
    pub fn psnd_dtq(mut self, caller: i32, id: i32, word: u32) -> Answer
        requires { Valid self }
        ensures { Does self (call caller (on_queue id (own (send Polling word)))) result }
    {
        self.with_queues(self.queue_effect(
            caller,
            id,
            QueueRequest::Own(QueueCall::Send(Patience::Polling, word)),
        ))
    }

    // Send.
    pub fn snd_dtq(mut self, caller: i32, id: i32, word: u32) -> Answer
        requires { Valid self }
        ensures { Does self (call caller (on_queue id (own (send Forever word)))) result }
    {
        self.with_queues(self.queue_effect(
            caller,
            id,
            QueueRequest::Own(QueueCall::Send(Patience::Forever, word)),
        ))
    }

    // Forced send.
    pub fn fsnd_dtq(mut self, caller: i32, id: i32, word: u32) -> Answer
        requires { Valid self }
        ensures { Does self (call caller (on_queue id (own (forced_send word)))) result }
    {
        self.with_queues(self.queue_effect(
            caller,
            id,
            QueueRequest::Own(QueueCall::ForcedSend(word)),
        ))
    }

    // Poll-receive.
    pub fn prcv_dtq(mut self, caller: i32, id: i32) -> Answer
        requires { Valid self }
        ensures { Does self (call caller (on_queue id (own (receive Polling)))) result }
    {
        self.with_queues(self.queue_effect(
            caller,
            id,
            QueueRequest::Own(QueueCall::Receive(Patience::Polling)),
        ))
    }

    // Receive.
    pub fn rcv_dtq(mut self, caller: i32, id: i32) -> Answer
        requires { Valid self }
        ensures { Does self (call caller (on_queue id (own (receive Forever)))) result }
    {
        self.with_queues(self.queue_effect(
            caller,
            id,
            QueueRequest::Own(QueueCall::Receive(Patience::Forever)),
        ))
    }

    // Refer.
    pub fn ref_dtq(mut self, caller: i32, id: i32) -> Answer
        requires { Valid self }
        ensures { Tells self (call caller (on_queue id refer)) result }
    {
        self.with_queues(self.queue_effect(caller, id, QueueRequest::Refer))
    }

    // Set-vector.
    pub fn sac_dtq(mut self, caller: i32, id: i32, vector: Vector) -> Answer
        requires { Valid self }
        ensures { Does self (call caller (on_queue id (set_vector vector))) result }
    {
        self.with_queues(self.queue_effect(caller, id, QueueRequest::SetVector(vector)))
    }

    #[tactic(auto, using(crate::proofs::Back::queues_held))]
    pub fn queue(self, number: usize) -> QueueInfo
        requires { Valid self }
        ensures { result ≡ info_of (queue_at (view_of self) number) }
    {
        let queues = self.queues;
        queues.queue(number)
    }

    // A queue's buffered word with k older ones; 0 past the last, as every query shows zeros for what is not there.
    #[tactic(auto, using(crate::proofs::Back::queues_held))]
    pub fn word(self, number: usize, k: usize) -> u32
        requires { Valid self }
        ensures { result ≡ get_or (queue_at (view_of self) number).buffer k 0 }
    {
        let queues = self.queues;
        queues.word(number, k)
    }
}
