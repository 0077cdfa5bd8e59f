// The frames of a load, one by one.
ghost use Rattle.std.specs.Prelude.{◌≡◌, ◌≤◌};

use crate::draws::{drawn, next_number};
use crate::made::{MOST_MADE, MadeFrame};

/// The frames of a load that are left, in their order. Each is made as it comes.
#[derive(Drop)]
pub struct Frames {
    // The number by which the last frame was made, before the first that of the start.
    number: u32,
    // How many frames have come, and how many there are.
    passed: u32,
    count: u32,
    ghost within: { passed ≤ count },
    ghost few: { count ≤ 10000000 },
}

impl Frames {
    /// So many frames, at most `MOST_MADE`, from a start.
    pub fn new(start: u32, count: u32) -> Frames
        requires { count ≤ MOST_MADE }
        ensures number { result.number ≡ start }
        ensures passed { result.passed ≡ 0 }
        ensures count { result.count ≡ count }
    {
        Frames {
            number: start,
            passed: 0,
            count,
        }
    }
}

impl Iterator for Frames {
    ghost use Rattle.std.specs.Prelude.{◌-◌};
    ghost use Rattle.std.specs.Iterator.{at_most};
    ghost use Rattle.rm_load.specs.Making.{GivesFrame};

    type Item = MadeFrame;

    ghost next_gives = { GivesFrame };

    ghost remaining = { λ frames. at_most (frames.count - frames.passed) };

    fn next(&mut self) -> Option<MadeFrame> {
        if self.passed == self.count {
            return None;
        }
        self.passed += 1;
        self.number = next_number(self.number);
        Some(MadeFrame::new(self.passed, drawn(self.number)))
    }
}
