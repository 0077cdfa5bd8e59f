ghost use Rattle.std.specs.Prelude.{None};

use crate::outside::Clock;
use std::marker::Model;
use std::time::{Clock as SystemClock, Instant};

/// The time since it was made, in milliseconds, by the machine's clock that never goes back. It stands still at 4294967295. Where the
/// machine's clock can't be read, it tells the last moment again, at first 0. It shows none of the moments told.
#[derive(Drop)]
pub struct HostClock<R> {
    rt: R,
    start: Option<Instant>,
    last: u32,
}

impl<R: SystemClock> HostClock<R> {
    /// A clock that counts from now on.
    pub fn new(rt: R) -> HostClock<R> {
        let start = Instant::now(&rt).ok();
        HostClock { rt, start, last: 0 }
    }
}

impl<R: SystemClock> Clock for HostClock<R> {
    ghost told = { λ _. None };

    fn now(&mut self) -> u32 {
        if let Some(elapsed) = self.start.and_then(|start| start.elapsed(&self.rt).ok()) {
            self.last = u32::try_from(elapsed.as_millis()).unwrap_or(u32::MAX);
        }
        self.last
    }
}
