// The group filter.
ghost use Rattle.std.specs.Prelude.{◌≤◌, [], List, length};
ghost use Rattle.rm_model.specs.Counting.{Counting};
ghost use Rattle.rm_model.specs.Journal.{Frame, Journal, passes};
ghost use Rattle.rm_acts.specs.declared.firing.Firing.{Firing};
ghost use Rattle.rm_filter.specs.Judging.{AreAccepting};
ghost use Rattle.rm_filter.specs.Standing.{Stands, IsUnderWay};

use crate::accepted::Accepted;
use crate::channel_table::ChannelTable;
use crate::filter_table::FilterTable;
use crate::judging::Accepting;
use arrayvec::ArrayVec;
use rm_group::Both;

/// The filters and the channels of the probe: filterTable and channelTable (RFC 1757, section 5). A frame is judged by all channels
/// before any event fires, and each firing then turns and spends the channels.
#[derive(Drop)]
pub struct Filters {
    pub(crate) tables: Both<FilterTable, ChannelTable>,
    // The channels that accept the frame that passes.
    pub(crate) accepting: Accepting,
}

impl Filters {
    /// No filter and no channel.
    pub fn new() -> Filters
        ensures { (settings : Counting) → Stands result settings [] }
    {
        Filters {
            tables: Both {
                first: FilterTable::new(),
                second: ChannelTable::new(),
            },
            accepting: ArrayVec::new(),
        }
    }

    /// The valid channels that accept the frame that passes, in the order of their indexes, as they were before any event fired by
    /// it.
    pub fn accepting(&self) -> &[Accepted]
        ensures few { length result.now ≤ 32 }
        ensures accepting { (settings : Counting) (frame : Frame) (earlier : Journal) (some : List Firing)
            → IsUnderWay self.now settings (passes frame) earlier some → AreAccepting settings frame earlier result.now }
    {
        self.accepting.as_slice()
    }
}
