ghost use Rattle.std.specs.Prelude.{◌≤◌, length, IfOk};
ghost use Rattle.rm_edge.specs.Outside.{Untold};

use super::counted::Counted;
use crate::outside::{Failed, Shelf};
use std::io::{Read, Seek, SeekFrom};
use std::rt::Files;
use std::{fs, io};

/// The files of the system by their paths, a shelf once its faults are counted. A read opens its file and closes it again. An
/// error is a fault of every name.
#[derive(Drop)]
pub struct FileShelf<R>(pub R);

impl<R: Files> FileShelf<R> {
    fn read_file(&self, name: &str, at: u64, into: &mut [u8]) -> io::Result<usize>
        ensures { IfOk result (λ count. count ≤ length into.old) }
    {
        let mut file = fs::open(&self.0, name)?;
        file.seek(SeekFrom::Start(at))?;
        file.read(into)
    }
}

impl<R: Files> Shelf for Counted<FileShelf<R>> {
    ghost held = { λ _ _. Untold };

    ghost faults = { λ s _. s.faults };

    fn read(&mut self, name: &str, at: u64, into: &mut [u8]) -> Result<usize, Failed> {
        let count = self.inner.read_file(name, at, into).ok();
        self.check(count)
    }
}
