// The calls of a form in memory.
ghost use Rattle.std.specs.Prelude.{◌≡◌, ◌↔◌, [], ◌∷◌, ◌++◌, true, OnOk, OnErr, Contains};
ghost use Rattle.rm_edge.specs.Outside.{one_more};

use rm_val::NoMemory;
use std::alloc::Global;

// How many calls there were, and the numbers of those that are to fail, the first call being 1.
#[derive(Drop)]
pub struct Calls {
    pub count: u64,
    pub failing: Vec<u64>,
}

impl Calls {
    // No call yet, and none that is to fail.
    pub fn new(alloc: Global) -> Calls
        ensures count { result.count ≡ 0 }
        ensures failing { result.failing.items ≡ [] }
    {
        Calls {
            count: 0,
            failing: Vec::new(alloc),
        }
    }

    // Lists the number of a call that is to fail.
    pub fn fail(&mut self, call: u64) -> Result<(), NoMemory>
        ensures count { self.new.count ≡ self.old.count }
        ensures ok { OnOk result (self.new.failing.items ≡ self.old.failing.items ++ call ∷ []) }
        ensures err { OnErr result (self.new.failing.items ≡ self.old.failing.items) }
    {
        self.failing.push(call).map_err(|_| NoMemory)
    }

    // Counts a call, and says whether it is to fail.
    pub fn begin(&mut self) -> bool
        ensures listed { (result ≡ true) ↔ Contains self.old.failing.items (one_more self.old.count) }
        ensures count { self.new.count ≡ one_more self.old.count }
        ensures failing { self.new.failing.items ≡ self.old.failing.items }
    {
        self.count = self.count.saturating_add(1);
        self.failing.contains(&self.count)
    }
}
