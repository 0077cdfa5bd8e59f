// What the probe is set to.
ghost use Rattle.std.specs.Prelude.{◌≡◌, ◌≤◌, IsTrue, length};

use arrayvec::ArrayVec;

/// A community, of at most 64 octets.
pub type Community = ArrayVec<u8, 64>;

/// What the probe is set to. It never changes while the probe runs.
#[derive(Drop)]
pub struct Settings {
    /// The most hosts of a table, 2 to 4096.
    pub hosts: u32,
    /// The most pairs of hosts of a table, 2 to 4096.
    pub pairs: u32,
    /// The most rows of a table of the upper layers, 2 to 1024.
    pub upper: u32,
    /// Whether a frame of fewer than 60 octets counts as it was captured. Else it counts as padded to 60.
    pub keep_short: bool,
    /// How many interfaces there are, 1 to 4.
    pub interfaces: u32,
    /// The community that may read, 1 to 64 octets.
    pub read: Community,
    /// The community that may read and write, 1 to 64 octets.
    pub write: Community,
    ghost hosts_low: { 2 ≤ hosts },
    ghost hosts_high: { hosts ≤ 4096 },
    ghost pairs_low: { 2 ≤ pairs },
    ghost pairs_high: { pairs ≤ 4096 },
    ghost upper_low: { 2 ≤ upper },
    ghost upper_high: { upper ≤ 1024 },
    ghost interfaces_low: { 1 ≤ interfaces },
    ghost interfaces_high: { interfaces ≤ 4 },
    ghost read_low: { 1 ≤ length read.items },
    ghost read_high: { length read.items ≤ 64 },
    ghost write_low: { 1 ≤ length write.items },
    ghost write_high: { length write.items ≤ 64 },
}

impl Settings {
    ghost use Rattle.rm_settings.specs.Communities.{is_known, may_write};

    /// Whether a community is the read or the write community.
    pub fn is_known(&self, community: &[u8]) -> bool
        ensures known { result ≡ is_known self.now community.now }
        ensures short { IsTrue result → length community.now ≤ 64 }
    {
        community == self.read.as_slice() || community == self.write.as_slice()
    }

    /// Whether a community is the write community.
    pub fn may_write(&self, community: &[u8]) -> bool
        ensures { result ≡ may_write self.now community.now }
    {
        community == self.write.as_slice()
    }
}
