// The rows that have a part, in order.
ghost use Rattle.std.specs.Prelude.{◌≡◌, filter, min, nat_lt};
ghost use Rattle.std.specs.List.{reduce, filter_map};
ghost use Rattle.rm_model.specs.Numbers.{IsNumberAbove};
ghost use Rattle.rm_pool.specs.Slots.{has_part, holder};

use crate::part::Part;
use crate::pool::Pool;
use crate::slot::Slot;

impl<P: Part> Pool<P> {
    /// The least row above one that has a part. None where none above has one.
    pub fn after(&self, row: u32) -> Option<u32>
        ensures { IsNumberAbove (has_part self.now) row result }
    {
        least_above(self.all(), row)
    }
}

// The least row above one of those that have a part.
fn least_above<P: Part>(slots: &[Slot<P>], row: u32) -> Option<u32>
    ensures { result ≡ reduce min (filter (λ holder. nat_lt row holder) (filter_map holder slots.now)) }
{
    slots
        .iter()
        .filter_map(|slot| slot.row)
        .filter(|holder| row < *holder)
        .min()
}
