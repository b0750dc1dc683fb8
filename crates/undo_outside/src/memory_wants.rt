//! The calls of an object in memory that found no memory.
ghost use Rattle.std.specs.Prelude.{◌≡◌, true, false};
ghost use Rattle.undo_outside.specs.Calls.{RoseOnce};

/// How many calls found no memory, and whether the last one did.
#[derive(Drop)]
pub struct MemoryWants {
    pub calls: u64,
    pub last: bool,
}

impl MemoryWants {
    /// No call found none yet.
    pub fn new() -> MemoryWants
        ensures { result ≡ record { calls = 0; last = false } }
    {
        MemoryWants {
            calls: 0,
            last: false,
        }
    }

    /// A call found no memory.
    pub fn count(&mut self)
        ensures calls { RoseOnce self.old.calls self.new.calls }
        ensures last { self.new.last ≡ true }
    {
        self.calls = self.calls.saturating_add(1);
        self.last = true;
    }

    /// A call found memory, or failed without looking for it.
    pub fn pass(&mut self)
        ensures { self.new ≡ record self.old { last = false } }
    {
        self.last = false;
    }
}
