ghost use Rattle.std.specs.Prelude.{None};

use super::counted::Counted;
use crate::outside::{Failed, Sink};
use std::io;
use std::io::Write;

/// Standard output, a sink once its faults are counted. An error is a fault, and so is a write that takes nothing of a piece.
#[derive(Drop)]
pub struct StdSink<R>(pub R);

impl<R: Print> Sink for Counted<StdSink<R>> {
    ghost content = { λ _. None };

    ghost faults = { λ s. s.faults };

    fn put(&mut self, piece: &[u8]) -> Result<(), Failed> {
        let put = io::writer(&self.inner.0).write_all(piece).ok();
        self.check(put)
    }
}
