// The limits of documents 01 and 02 ("What the core holds", "Building the table"; requests T-03, T-06, T-07 and T-10), each written once.
ghost use Rattle.std.specs.Prelude.{◌≡◌};
ghost use Rattle.itron.specs.Limits as Specified;

// User domains; also the bits of a pattern.
pub const MAX_DOMAINS: usize = 32;

pub const MAX_TASKS: usize = 255;

pub const MAX_SEMAPHORES: usize = 64;

pub const MAX_QUEUES: usize = 16;

pub const MAX_REGIONS: usize = 64;

// Words of all data queues together.
pub const MAX_WORDS: usize = 2_048;

// Words of one data queue.
pub const MAX_CAPACITY: u32 = 256;

// The largest maximum count of a semaphore.
pub const MAX_COUNT: u32 = 65_535;

// The least urgent priority of a task; 1 is the most urgent.
pub const MAX_PRIORITY: u32 = 16;

// The highest level of a task: so many extended service calls deep.
pub const MAX_LEVEL: u8 = 255;

// The first number that is no address.
pub const ADDRESS_END: u64 = 4_294_967_296;

// The finest protection unit: every number is a multiple of it.
pub const MIN_UNIT: u32 = 1;

// The coarsest.
pub const MAX_UNIT: u32 = 65_536;

// All of them, for whoever has to know how large a table can be.
#[derive(Clone, Copy)]
pub struct Limits {
    pub domains: usize,
    pub tasks: usize,
    pub semaphores: usize,
    pub queues: usize,
    pub regions: usize,
    pub words: usize,
    pub capacity: u32,
    pub count: u32,
    pub priority: u32,
    pub level: u8,
    pub addresses: u64,
    pub finest: u32,
    pub coarsest: u32,
}

impl Limits {
    // The numbers above are those of the definitions: one that differs from its definition is not proved.
    pub fn all() -> Limits
        ensures { result ≡ Specified.limits }
    {
        Limits {
            domains: MAX_DOMAINS,
            tasks: MAX_TASKS,
            semaphores: MAX_SEMAPHORES,
            queues: MAX_QUEUES,
            regions: MAX_REGIONS,
            words: MAX_WORDS,
            capacity: MAX_CAPACITY,
            count: MAX_COUNT,
            priority: MAX_PRIORITY,
            level: MAX_LEVEL,
            addresses: ADDRESS_END,
            finest: MIN_UNIT,
            coarsest: MAX_UNIT,
        }
    }
}
