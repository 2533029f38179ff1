// The most urgent of those who wait at a place, found along the order in which they began to.
ghost use Rattle.std.specs.Prelude.{◌≡◌};
ghost use Rattle.tasks.specs.Leads.{lead_of};

// The index of a task, with its priority.
#[derive(Clone, Copy)]
pub(crate) struct Lead {
    pub(crate) task: usize,
    pub(crate) priority: u8,
}

impl Lead {
    // Who leads of one who comes later and the one who did, if any did: the later only if it is more urgent.
    pub(crate) fn after(self, lead: Option<Lead>) -> Lead
        ensures { result ≡ lead_of lead self }
    {
        match lead {
            Some(lead) if lead.priority <= self.priority => lead,
            _ => self,
        }
    }
}
