// How often a key was referred to.
ghost use Rattle.million_references.specs.Times.{never, and_again};

use rm_evicting::Blank;
use rm_keyed::Counts;

/// How often a key was referred to since it was entered.
#[derive(Clone, Copy, Debug, PartialEq, Eq)]
pub struct Times {
    pub count: u64,
}

/// One reference.
pub const ONCE: Times = Times { count: 1 };

impl Blank for Times {
    ghost blank_value = { never };

    fn blank() -> Times {
        Times { count: 0 }
    }
}

impl Counts for Times {
    ghost plus = { and_again };

    fn add(&mut self, gain: &Times) {
        self.count = self.count.wrapping_add(gain.count);
    }
}
