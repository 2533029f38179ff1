// Pairs of calls on a data queue that leave the table as it was, so that every round does the same work; and forced sends into a full
// buffer, which do the same work once it is full.
use bench_table::closed;

// A task sends a word to a queue, by force or without waiting, and receives it; the sum of the words received.
fn sent_and_received<const FORCED: bool>(pairs: u32, task: i32, id: i32) -> u32 {
    let mut s = closed();
    let mut sum: u32 = 0;
    for word in 0..pairs {
        s = if FORCED {
            s.fsnd_dtq(task, id, word).state
        } else {
            s.psnd_dtq(task, id, word).state
        };
        let received = s.prcv_dtq(task, id);
        s = received.state;
        sum = sum.wrapping_add(received.word);
    }
    sum
}

// A send and a receive, both without waiting.
#[unsafe(no_mangle)]
pub extern "C" fn timing_send_receive(pairs: u32, task: i32, id: i32) -> u32 {
    sent_and_received::<false>(pairs, task, id)
}

// A task waits to receive from a queue and another sends to it; the sum of the words that the released task got.
#[unsafe(no_mangle)]
pub extern "C" fn timing_wait_send(pairs: u32, waiter: i32, task: i32, id: i32) -> u32 {
    let mut s = closed();
    let mut sum: u32 = 0;
    for word in 0..pairs {
        s = s.rcv_dtq(waiter, id).state;
        let sent = s.snd_dtq(task, id, word);
        s = sent.state;
        sum = sum.wrapping_add(sent.released.word);
    }
    sum
}

// A forced send, for which the queue has room, and a receive.
#[unsafe(no_mangle)]
pub extern "C" fn timing_force_receive(pairs: u32, task: i32, id: i32) -> u32 {
    sent_and_received::<true>(pairs, task, id)
}

// A task sends words to a queue by force: as soon as it is full, each drops the oldest; the word that is the oldest at the end.
#[unsafe(no_mangle)]
pub extern "C" fn timing_force_drop(rounds: u32, task: i32, id: i32) -> u32 {
    let mut s = closed();
    for word in 0..rounds {
        s = s.fsnd_dtq(task, id, word).state;
    }
    s.prcv_dtq(task, id).word
}

// A task refers to a queue and sets the vector that it was told; the sum of its patterns for normal operation 1.
#[unsafe(no_mangle)]
pub extern "C" fn timing_refer_set_queue(pairs: u32, task: i32, id: i32) -> u32 {
    let mut s = closed();
    let mut sum: u32 = 0;
    for _ in 0..pairs {
        let told = s.ref_dtq(task, id);
        s = told.state;
        let vector = told.info.vector;
        s = s.sac_dtq(task, id, vector).state;
        sum = sum.wrapping_add(vector.normal1);
    }
    sum
}
