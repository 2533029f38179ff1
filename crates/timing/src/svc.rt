// Entering and leaving an extended service call, which leaves the table as it was.
use crate::count::good;
use bench_table::closed;

// A task enters and leaves; the number of calls answered E_OK.
#[unsafe(no_mangle)]
pub extern "C" fn timing_enter_leave(pairs: u32, task: i32) -> u32 {
    let mut s = closed();
    let mut count: u32 = 0;
    for _ in 0..pairs {
        let entered = s.cal_svc(task);
        s = entered.state;
        let left = s.ret_svc(task);
        s = left.state;
        count = count.wrapping_add(good(entered.outcome) + good(left.outcome));
    }
    count
}
