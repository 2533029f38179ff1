// Pairs of calls on a semaphore that leave the table as it was, so that every round does the same work (of wait and signal all but the first).
use crate::count::good;
use bench_table::closed;

// A task signals a semaphore and polls it; the number of calls answered E_OK.
#[unsafe(no_mangle)]
pub extern "C" fn timing_signal_poll(pairs: u32, task: i32, id: i32) -> u32 {
    let mut s = closed();
    let mut count: u32 = 0;
    for _ in 0..pairs {
        let signalled = s.sig_sem(task, id);
        s = signalled.state;
        let polled = s.pol_sem(task, id);
        s = polled.state;
        count = count.wrapping_add(good(signalled.outcome) + good(polled.outcome));
    }
    count
}

// A task waits on a semaphore and another signals it; the number of tasks released. In the first round nobody signals, since task 0 is
// none: so the first wait takes the one count that there is, and every other waits.
#[unsafe(no_mangle)]
pub extern "C" fn timing_wait_signal(pairs: u32, waiter: i32, task: i32, id: i32) -> u32 {
    let mut s = closed();
    let mut count: u32 = 0;
    for round in 0..pairs {
        s = s.wai_sem(waiter, id).state;
        let signalled = s.sig_sem(if round == 0 { 0 } else { task }, id);
        s = signalled.state;
        count = count.wrapping_add(u32::from(signalled.released.task != 0));
    }
    count
}

// A task refers to a semaphore and sets the vector that it was told; the sum of the counts told.
#[unsafe(no_mangle)]
pub extern "C" fn timing_refer_set_semaphore(pairs: u32, task: i32, id: i32) -> u32 {
    let mut s = closed();
    let mut sum: u32 = 0;
    for _ in 0..pairs {
        let told = s.ref_sem(task, id);
        s = told.state;
        let info = told.info;
        s = s.sac_sem(task, id, info.vector).state;
        sum = sum.wrapping_add(info.amount);
    }
    sum
}
