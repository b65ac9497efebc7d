// A disk's fuse, and its count of faults.
ghost use Rattle.std.specs.Prelude.{◌≡◌, ◌≤◌, true};
ghost use Rattle.cl_base.specs.Counts.{Rose};
ghost use Rattle.cl_base.specs.Disk.{after_call};

#[derive(Drop)]
pub struct Guard {
    /// How many changing calls the fuse still lets pass.
    pub lets: Option<u64>,
    /// The fuse has refused a call.
    pub burnt: bool,
    pub faults: u64,
}

impl Guard {
    ghost use Rattle.std.specs.Prelude.{Some, None, false};
    ghost use Rattle.cl_filedisk.specs.Guard.{IsFresh, refuses};

    pub fn new() -> Guard
        ensures { IsFresh result }
    {
        Guard {
            lets: None,
            burnt: false,
            faults: 0,
        }
    }

    /// The fuse refuses the next changing call.
    pub fn refuses_change(&self) -> bool
        ensures { result ≡ refuses self.now }
    {
        self.burnt || self.lets == Some(0)
    }

    /// Takes one off the fuse.
    pub fn pass(&mut self)
        ensures { self.new ≡ record self.old { lets = after_call self.old.lets } }
    {
        if let Some(calls) = self.lets {
            self.lets = Some(calls.saturating_sub(1));
        }
    }

    /// Counts a fault.
    pub fn count_fault(&mut self)
        ensures rest { self.new ≡ record self.old { faults = self.new.faults } }
        ensures later { self.old.faults ≤ self.new.faults }
        ensures rose { Rose self.old.faults self.new.faults }
    {
        self.faults = self.faults.saturating_add(1);
    }

    /// The fuse refuses a call.
    pub fn refuse(&mut self)
        ensures rest { self.new ≡ record self.old { faults = self.new.faults; burnt = true } }
        ensures later { self.old.faults ≤ self.new.faults }
        ensures rose { Rose self.old.faults self.new.faults }
    {
        self.count_fault();
        self.burnt = true;
    }

    pub fn set(&mut self, calls: u64)
        ensures { self.new ≡ record self.old { lets = Some calls } }
    {
        self.lets = Some(calls);
    }

    /// No fuse is set any more.
    pub fn clear(&mut self)
        ensures { self.new ≡ record self.old { lets = None; burnt = false } }
    {
        self.lets = None;
        self.burnt = false;
    }
}
