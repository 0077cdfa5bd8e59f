// The settings of a case.
ghost use Rattle.std.specs.Prelude.{◌≡◌, ◌≤◌, ◌↔◌, IfOk, IsTrue, length};

use arrayvec::ArrayVec;
use case_text::{Trouble, first_word, number, word_octets};
use rm_settings::Settings;
use std::alloc::Global;

/// The settings that a case gives, and the moment of its first frame. What it doesn't give is as `rm_cmd::run` has it.
#[derive(Drop)]
pub struct Given {
    /// Whether the case gives any.
    pub is_any: bool,
    /// The moment of the first frame, in milliseconds.
    pub lead: u32,
    hosts: u32,
    pairs: u32,
    upper: u32,
    keep_short: bool,
    read: Vec<u8>,
    write: Vec<u8>,
}

impl Given {
    pub fn new(alloc: Global) -> Result<Given, Trouble> {
        Ok(Given {
            is_any: false,
            lead: 1000,
            hosts: 1024,
            pairs: 1024,
            upper: 1024,
            keep_short: false,
            read: Vec::from_slice(alloc, b"public")?,
            write: Vec::from_slice(alloc, b"private")?,
        })
    }

    /// Takes a setting, its name and its value.
    pub fn take(&mut self, alloc: Global, text: &str) -> Result<(), Trouble> {
        let (name, value) = first_word(text);
        match name {
            "lead" => self.lead = number(value)?,
            "hosts" => self.hosts = number(value)?,
            "pairs" => self.pairs = number(value)?,
            "upper" => self.upper = number(value)?,
            "keep_short" => {
                self.keep_short = value
                    .parse::<bool>()
                    .map_err(|_| Trouble::Form("neither true nor false"))?;
            }
            "read" => self.read = word_octets(alloc, value)?,
            "write" => self.write = word_octets(alloc, value)?,
            _ => return Err(Trouble::Form("no setting")),
        }
        self.is_any = true;
        Ok(())
    }

    /// The settings of the probe, which has one interface.
    pub fn settings(&self) -> Result<Settings, Trouble>
        ensures { IfOk result (λ settings. settings.interfaces ≡ 1) }
    {
        let read = community(&self.read)?;
        let write = community(&self.write)?;
        if !is_within(self.hosts, 4096) || !is_within(self.pairs, 4096) {
            return Err(Trouble::Form("a bound that isn't 2 to 4096"));
        }
        if !is_within(self.upper, 1024) {
            return Err(Trouble::Form("a bound that isn't 2 to 1024"));
        }
        Ok(Settings {
            hosts: self.hosts,
            pairs: self.pairs,
            upper: self.upper,
            keep_short: self.keep_short,
            interfaces: 1,
            read,
            write,
        })
    }
}

// Whether a bound is from 2 to the greatest one.
fn is_within(bound: u32, most: u32) -> bool
    ensures { IsTrue result ↔ ((2 ≤ bound) × (bound ≤ most)) }
{
    2 <= bound && bound <= most
}

fn community(octets: &[u8]) -> Result<ArrayVec<u8, 64>, Trouble>
    ensures { IfOk result (λ community. 1 ≤ length community.items) }
{
    if octets.is_empty() {
        return Err(Trouble::Form("a community of no octets"));
    }
    ArrayVec::try_from(octets).map_err(|_| Trouble::Form("a community of more than 64 octets"))
}
