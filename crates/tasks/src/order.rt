// The order in which those who wait began to.
ghost use Rattle.std.specs.Prelude.{◌≡◌, ◌≤◌, ◌<◌, ◌↔◌, IsTrue};
ghost use Rattle.itron.specs.Limits.{max_tasks};
ghost use Rattle.tasks.specs.Orders.{arrivals, order_of, pushed, without};

use itron::limit::MAX_TASKS;

// Indexes of tasks by arrival: the first `count` entries; the others are 0.
#[derive(Clone, Copy)]
pub(crate) struct Order {
    entries: [u8; MAX_TASKS],
    count: usize,
}

impl Order {
    // Nobody.
    pub(crate) const EMPTY: Order = Order {
        entries: [0; MAX_TASKS],
        count: 0,
    };

    // Whether it is nobody.
    pub(crate) fn is_empty(&self) -> bool
        ensures { IsTrue result ↔ (self.now.count ≡ 0) }
    {
        self.count == 0
    }

    // All of them, the first to come first.
    pub(crate) fn as_slice(&self) -> &[u8]
        requires { self.now.count ≤ max_tasks }
        ensures { result.now ≡ arrivals self.now }
    {
        &self.entries[..self.count]
    }

    // One more, the last to come.
    pub(crate) fn push(&mut self, task: u8)
        requires { self.old.count < max_tasks }
        ensures { self.new ≡ pushed self.old task }
    {
        self.entries[self.count] = task;
        self.count += 1;
    }

    // One task left out.
    pub(crate) fn without(&self, left: u8) -> Order
        requires { self.now.count ≤ max_tasks }
        ensures { result ≡ order_of (without left (arrivals self.now)) }
    {
        let mut rest = Order::EMPTY;
        let all = self.as_slice();
        for &task in all {
            if task != left {
                rest.push(task);
            }
        }
        rest
    }
}
