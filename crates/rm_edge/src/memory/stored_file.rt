ghost use Rattle.std.specs.Prelude.{◌≡◌, ◌≤◌, ◌-◌, IfOk, length, take, drop, min};
ghost use Rattle.rm_edge.specs.Outside.{one_more};
ghost use Rattle.rm_edge.specs.MemShelf.{is_named};

use rm_val::NoMemory;
use std::alloc::Global;
use std::marker::Model;

// A file of a shelf in memory, and how often a read of it has failed.
#[derive(Drop)]
pub struct StoredFile {
    name: String,
    bytes: Vec<u8>,
    faults: u64,
}

impl Model for StoredFile {
    ghost use Rattle.std.specs.String.{string_bytes};
    ghost use Rattle.rm_edge.specs.MemShelf.{NamedFile};

    ghost Value = { NamedFile };

    ghost view = { λ f. record {
      name = string_bytes f.name;
      bytes = f.bytes.items;
      faults = f.faults;
    } };
}

impl StoredFile {
    pub fn new(alloc: Global, name: &str, bytes: &[u8]) -> Result<StoredFile, NoMemory>
        ensures { IfOk result (λ file.
            file ≡ record { name = name.now; bytes = bytes.now; faults = 0 }) }
    {
        Ok(StoredFile {
            name: String::from_str(alloc, name).map_err(|_| NoMemory)?,
            bytes: Vec::from_slice(alloc, bytes).map_err(|_| NoMemory)?,
            faults: 0,
        })
    }

    pub fn is_named(&self, name: &str) -> bool
        ensures { result ≡ is_named name.now self.now }
    {
        self.name.as_str() == name
    }

    // Copies the octets from place `at` on, as many as there are and fit, and no more than `most`.
    pub fn read_at(&self, at: u64, most: usize, into: &mut [u8]) -> usize
        ensures count { result ≡ min (length self.now.bytes - at) (min (length into.old) most) }
        ensures octets { take result into.new ≡ take result (drop at self.now.bytes) }
    {
        if at >= self.bytes.len() as u64 {
            return 0;
        }
        let rest = &self.bytes[at as usize..];
        let count = rest.len().min(into.len()).min(most);
        into[..count].copy_from_slice(&rest[..count]);
        count
    }

    pub fn count_fault(&mut self)
        ensures counted { self.new ≡ record self.old { faults = one_more self.old.faults } }
        ensures later { self.old.faults ≤ self.new.faults }
    {
        self.faults = self.faults.saturating_add(1);
    }
}
