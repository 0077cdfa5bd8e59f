ghost use Rattle.std.specs.Prelude.{◌≡◌, Ok, OnOk, IsErr, IfSome, IfNone};
ghost use Rattle.rm_edge.specs.Outside.{HasCause};

use crate::outside::Failed;

/// Something of the system, and how often a call on it has failed. The count stands still at the end of 64 bits.
#[derive(Drop)]
pub struct Counted<T> {
    pub(super) inner: T,
    pub(super) faults: u64,
}

impl<T> Counted<T> {
    /// Over `inner`, with no fault.
    pub fn new(inner: T) -> Counted<T>
        ensures { result.faults ≡ 0 }
    {
        Counted { inner, faults: 0 }
    }

    // What a call gave. Where it gave nothing, that is a fault.
    pub(super) fn check<G>(&mut self, given: Option<G>) -> Result<G, Failed>
        ensures some { IfSome given (λ value. result ≡ Ok value) }
        ensures none { IfNone given (IsErr result) }
        ensures kept { OnOk result (self.new ≡ self.old) }
        ensures cause { HasCause self.old.faults self.new.faults result }
    {
        match given {
            Some(value) => Ok(value),
            None => {
                self.faults = self.faults.saturating_add(1);
                Err(Failed)
            }
        }
    }
}
