// Data queues.
use crate::Patience;
use access::vector::Vector;

// A data queue's own calls: both sends, of a word; both receives; the forced send, of a word.
#[derive(Clone, Copy)]
pub enum QueueCall {
    Send(Patience, u32),
    Receive(Patience),
    ForcedSend(u32),
}

// What can be asked of a data queue.
#[derive(Clone, Copy)]
pub enum QueueRequest {
    Own(QueueCall),
    Refer,
    SetVector(Vector),
}
