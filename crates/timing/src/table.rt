// The table that verdicts are timed on, and that of sends into queues of any capacity.
ghost use Rattle.kernel.specs.Valid.{Valid};

use access::domain::KERNEL_DOMAIN;
use bench_table::given;
use dataqueue::entry::QueueEntry;
use itron::limit::MAX_REGIONS;
use kernel::state::State;
use regions::entry::RegionEntry;

pub(crate) const REGION_SIZE: u32 = 4096;

const REGIONS: u32 = MAX_REGIONS as u32;

const QUEUES: usize = 8;

// As many regions as there may be, one behind the other from address 0.
pub fn all_regions() -> State
    ensures { Valid result }
{
    let mut s = State::fresh(2, REGION_SIZE).state;
    for k in 0..REGIONS {
        s = s
            .add_region(RegionEntry {
                domain: KERNEL_DOMAIN,
                attribute: 0,
                base: k * REGION_SIZE,
                size: REGION_SIZE,
                vector: given(1, 1, 0, 1),
            })
            .state;
    }
    s.close().state
}

// Queues of a capacity, as many as there can be of the largest, and a task to which they are private.
pub fn eight_queues(capacity: u32) -> State
    ensures { Valid result }
{
    let mut s = State::fresh(1, REGION_SIZE).state;
    s = s.add_task(1, 1).state;
    for _ in 0..QUEUES {
        s = s
            .add_queue(QueueEntry {
                domain: 1,
                attribute: 0,
                capacity,
                vector: None,
            })
            .state;
    }
    s.close().state
}
