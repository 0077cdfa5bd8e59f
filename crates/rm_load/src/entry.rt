// The one public call.
ghost use Rattle.std.specs.Prelude.{◌≤◌};
ghost use Rattle.rm_edge.specs.Uses.{sink_use};
ghost use Rattle.rm_load.specs.Ends.{Ends};

use crate::loading::loaded;
use crate::writing::write;
use rm_edge::Sink;
use rm_settings::Settings;
use std::alloc::Global;

/// Why the lines of a load weren't written whole.
#[derive(Clone, Copy, Debug, PartialEq, Eq)]
pub enum LoadFault {
    /// There was no memory for the probe. Nothing was put.
    NoMemory,
    /// A put failed. A front of the text may have been put.
    Put,
}

/// Makes a probe that is set so, gives it so many frames, at most 10,000,000, which are made one by one from a number, the start, and writes
/// what its tables show then.
///
/// Two SetRequests of its write community make row 1 of hostControl, matrixControl, hlHostControl and hlMatrixControl, at 100 and 200
/// milliseconds. The frames go between 64 hosts, and come from 1001 on, one each millisecond. A linear generator draws the hosts, the port and
/// the length of each. They are 64 to 1518 octets long, of which 60 are captured.
///
/// There are fourteen lines of a word, a blank and a number, which a variable shows a millisecond after the last frame: `etherStatsPkts` and
/// `etherStatsOctets`; `hostControlTableSize`, `hostControlLastDeleteTime`, and the same of `matrixControl`; of hlHostControl
/// `hostNlInserts`, `hostNlDeletes`, `hostAlInserts` and `hostAlDeletes`, and the same of hlMatrixControl with `matrix` in place of `host`. The
/// last line is `end` with the number of frames. Each line is put by itself, and nothing before all frames have come. `Put` comes only where
/// the sink's count of faults has risen.
pub fn load<K: Sink>(
    alloc: Global,
    settings: Settings,
    start: u32,
    count: u32,
    out: &mut K,
) -> Result<(), LoadFault>
    requires { count ≤ 10000000 }
    ensures ends { Ends settings start count (sink_use K.content K.faults out.old out.new) result }
    ensures puts_later { K.faults out.old ≤ K.faults out.new }
{
    let Ok(probe) = loaded(alloc, settings, start, count) else {
        return Err(LoadFault::NoMemory);
    };
    match write(&probe, count, out) {
        Ok(()) => Ok(()),
        Err(_) => Err(LoadFault::Put),
    }
}
