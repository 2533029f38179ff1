// All levels.
ghost use Rattle.std.specs.Prelude.{◌≡◌, [], ◌<◌, get_or};
ghost use Rattle.itron.specs.Limits.{max_tasks};
ghost use Rattle.levels.specs.Form.{levels_as, with_level};

use itron::limit::MAX_TASKS;

// The level of the task with each index; 0 where there is none.
#[derive(Clone, Copy)]
pub struct Levels {
    pub(crate) entries: [u8; MAX_TASKS],
}

impl Levels {
    // Outside every extended service call.
    pub fn outside() -> Levels
        ensures { result ≡ levels_as [] }
    {
        Levels {
            entries: [0; MAX_TASKS],
        }
    }

    // The level of the task with an index.
    pub fn level(self, task: usize) -> u8
        requires { task < max_tasks }
        ensures { result ≡ get_or self.entries task 0 }
    {
        self.entries[task]
    }

    // That task has another.
    pub(crate) fn with_level(mut self, task: usize, level: u8) -> Levels
        requires { task < max_tasks }
        ensures { result ≡ with_level self task level }
    {
        self.entries[task] = level;
        self
    }
}
