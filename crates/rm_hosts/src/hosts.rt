// What the rows of hostControl collect.
use crate::host_rows::HostRows;
use rm_collect::Collecting;
use rm_sourced::Sourced;

/// The hosts that frames come from and go to: hostControlTable, hostTable and hostTimeTable (RFC 1757, section 5). A valid row of
/// hostControl has the storage of its hosts; other storage may be spare.
pub type Hosts = Collecting<HostTable>;

/// The hosts that a row of hostControl holds, and the interface whose frames it takes.
pub type HostTable = Sourced<[u8; 6], HostRows>;
