// A frame that the rows of a control table count.
ghost use Rattle.std.specs.Prelude.{◌≡◌, ◌+◌, ◌<◌, ◌^◌};

use rm_proto::{Facts, IpPair};

/// A frame that each active control row counts. It has two stamps, since it may name two keys.
#[derive(Drop)]
pub struct CountedFrame<'a> {
    /// What is known of it.
    pub facts: &'a Facts,
    /// The local indexes of the protocols above ip on its path.
    pub path: &'a [u32],
    /// The moment at which it passed, in milliseconds.
    pub moment: u32,
    /// The first of its two stamps.
    pub stamp: u64,
    ghost fits: { stamp + 1 < 2 ^ 58 },
}

impl CountedFrame<'_> {
    ghost use Rattle.rm_layer_tables.specs.Layer.{ends_for};

    /// The addresses by which it counts for a control row whose data source is the interface with a number: those of a good frame of that
    /// interface. None where it doesn't count.
    pub fn ends_for(&self, source: u32) -> Option<IpPair>
        ensures { result ≡ ends_for source self.now.facts.now }
    {
        if self.facts.good && source == self.facts.interface {
            self.facts.ip
        } else {
            None
        }
    }
}
