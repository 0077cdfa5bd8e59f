// Why a text couldn't be read.
use rm_val::NoMemory;
use std::alloc::{AllocError, AllocFailed};

/// Why a text couldn't be read.
#[derive(Clone, Copy, Debug, PartialEq, Eq)]
pub enum Trouble {
    /// It isn't of the form, and this is what is wrong with it.
    Form(&'static str),
    /// There was no memory.
    NoMemory,
}

impl Trouble {
    /// What is said of it.
    pub fn text(self) -> &'static str {
        match self {
            Trouble::Form(text) => text,
            Trouble::NoMemory => "no memory",
        }
    }
}

impl From<AllocError> for Trouble {
    fn from(_: AllocError) -> Trouble {
        Trouble::NoMemory
    }
}

impl<T: Drop> From<AllocFailed<T>> for Trouble {
    fn from(_: AllocFailed<T>) -> Trouble {
        Trouble::NoMemory
    }
}

impl From<NoMemory> for Trouble {
    fn from(_: NoMemory) -> Trouble {
        Trouble::NoMemory
    }
}
