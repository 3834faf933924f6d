// Planned faults of a device in memory.
ghost use Rattle.std.specs.Prelude.{◌≡◌, ◌↔◌, ◌∷◌, ◌++◌, [], Contains, IsTrue, OnOk, OnErr};
ghost use Rattle.robin_io.specs.Counts.{raised};

use std::alloc::{AllocError, Global};

/// Which calls fail. Calls are numbered from 1, and the number stays at the greatest `u64`.
#[derive(Drop)]
pub struct Plan {
    failing: Vec<u64>,
    calls: u64,
}

impl Plan {
    /// No call fails, and none was counted.
    pub fn new(alloc: Global) -> Plan
        ensures failing { result.failing.items ≡ [] }
        ensures calls { result.calls ≡ 0 }
    {
        Plan {
            failing: Vec::new(alloc),
            calls: 0,
        }
    }

    /// Plans that the call of this number fails.
    ///
    /// # Errors
    /// Only where memory runs out: then nothing changes.
    pub fn add(&mut self, call: u64) -> Result<(), AllocError>
        ensures ok { OnOk result (self.new.failing.items ≡ self.old.failing.items ++ call ∷ []) }
        ensures err { OnErr result (self.new.failing.items ≡ self.old.failing.items) }
        ensures calls { self.new.calls ≡ self.old.calls }
    {
        self.failing.push(call)?;
        Ok(())
    }

    /// Counts a call, and says whether it fails.
    pub fn next_fails(&mut self) -> bool
        ensures fails { IsTrue result ↔ Contains self.old.failing.items (raised self.old.calls 1) }
        ensures calls { self.new.calls ≡ raised self.old.calls 1 }
        ensures failing { self.new.failing.items ≡ self.old.failing.items }
    {
        self.calls = self.calls.saturating_add(1);
        self.failing.contains(&self.calls)
    }
}
