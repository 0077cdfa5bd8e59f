ghost use Rattle.std.specs.Prelude.{◌≡◌, ◌≢◌, ◌-◌, ◌≤◌, ◌↔◌, ◌⊎◌, ℕ, List, [], ◌∷◌, ◌++◌, OnOk, OnErr, IfOk, IsErr, is_err, if◌then◌else◌, length, min, position};
ghost use Rattle.rm_edge.specs.Outside.{Absent, File, Reads, HasCause, OfFile, one_more};
ghost use Rattle.rm_edge.specs.Shelves.{KeepsShelf};
ghost use Rattle.rm_edge.specs.MemShelf.{is_named, held_in, faults_in, IsToFail};

use super::calls::Calls;
use super::stored_file::StoredFile;
use crate::outside::{Failed, Shelf};
use rm_val::NoMemory;
use std::alloc::Global;
use std::marker::Model;

/// A shelf in memory. It tells all its files, and fails at the calls that were listed, at a name
/// that has no file, and nowhere else. Each file has its own count of faults, and all absent names
/// share one.
#[derive(Drop)]
pub struct MemShelf {
    alloc: Global,
    files: Vec<StoredFile>,
    absent_faults: u64,
    calls: Calls,
    most: usize,
}

impl Model for MemShelf {
    ghost use Rattle.std.specs.Prelude.{◌≤◌};
    ghost use Rattle.rm_edge.specs.MemShelf.{ShelfState};

    ghost Value = { ShelfState };

    ghost view = { λ s. record {
      files = s.files.items;
      absent_faults = s.absent_faults;
      calls = s.calls.count;
      failing = s.calls.failing.items;
      most = s.most;
    } };

    ghost invariant = { λ s. 1 ≤ s.most };
}

impl MemShelf {
    /// A shelf with no file, that has had no read and no fault. A read gives all that fits.
    pub fn new(alloc: Global) -> MemShelf
        ensures { result ≡ record {
          files = [];
          absent_faults = 0;
          calls = 0;
          failing = [];
          most = usize.MAX;
        } }
    {
        MemShelf {
            alloc,
            files: Vec::new(alloc),
            absent_faults: 0,
            calls: Calls::new(alloc),
            most: usize::MAX,
        }
    }

    /// Adds a file of these octets. The name must have none yet. The file's count of faults begins
    /// at 0. After NoMemory the shelf is as before.
    pub fn add(&mut self, name: &str, bytes: &[u8]) -> Result<(), NoMemory>
        requires { held_in self.old name.now ≡ Absent }
        ensures ok { OnOk result (self.new ≡ record self.old {
          files = self.old.files ++ record { name = name.now; bytes = bytes.now; faults = 0 } ∷ [];
        }) }
        ensures added { OnOk result (held_in self.new name.now ≡ File bytes.now) }
        ensures others { OnOk result ((each : List ℕ) → each ≢ name.now
            → held_in self.new each ≡ held_in self.old each) }
        ensures err { OnErr result (self.new ≡ self.old) }
    {
        let file = StoredFile::new(self.alloc, name, bytes)?;
        self.files.push(file).map_err(|_| NoMemory)?;
        Ok(())
    }

    /// Lists the number of a read that is to fail, the first read since the shelf was made being 1.
    /// After NoMemory the shelf is as before.
    pub fn fail(&mut self, call: u64) -> Result<(), NoMemory>
        ensures ok { OnOk result (self.new ≡ record self.old { failing = self.old.failing ++ call ∷ [] }) }
        ensures err { OnErr result (self.new ≡ self.old) }
    {
        self.calls.fail(call)
    }

    /// Sets the most octets that one read gives from now on, which must be at least 1.
    pub fn pieces(&mut self, most: usize)
        requires { 1 ≤ most }
        ensures { self.new ≡ record self.old { most = most } }
    {
        self.most = most;
    }
}

// The place of the file with that name.
fn place_of(files: &[StoredFile], name: &str) -> Option<usize>
    ensures { result ≡ position (is_named name.now) files.now }
{
    files.iter().position(|file| file.is_named(name))
}

impl Shelf for MemShelf {
    ghost held = { λ s name. held_in s name };

    ghost faults = { λ s name. faults_in s name };

    fn read(&mut self, name: &str, at: u64, into: &mut [u8]) -> Result<usize, Failed>
        ensures most { IfOk result (λ count. count ≤ length into.old) }
        ensures shelf { KeepsShelf held_in faults_in self.old self.new (λ each. each ≡ name.now) (IsErr result) }
        ensures octets { Reads (held_in self.old name.now) at into.new result }
        ensures cause { HasCause (faults_in self.old name.now) (faults_in self.new name.now) result }

        // It fails at the listed calls and where there is no file, and nowhere else.
        ensures exact { IsErr result ↔ (IsToFail self.old ⊎ (held_in self.old name.now ≡ Absent)) }

        // It gives as many octets as the file still has and as fit, and no more than are to be
        // given at once.
        ensures count { IfOk result (λ count. OfFile (held_in self.old name.now) (λ bytes.
            count ≡ min (length bytes - at) (min (length into.old) self.old.most))) }

        // A fault counts for the name alone, or for all absent names.
        ensures counted { faults_in self.new name.now ≡ (if is_err result
            then one_more (faults_in self.old name.now) else faults_in self.old name.now) }

        ensures calls { self.new.calls ≡ one_more self.old.calls }
        ensures failing { self.new.failing ≡ self.old.failing }
        ensures pieces { self.new.most ≡ self.old.most }
    {
        let fails = self.calls.begin();
        let Some(place) = place_of(&self.files, name) else {
            self.absent_faults = self.absent_faults.saturating_add(1);
            return Err(Failed);
        };
        if fails {
            self.files[place].count_fault();
            return Err(Failed);
        }
        Ok(self.files[place].read_at(at, self.most, into))
    }
}
