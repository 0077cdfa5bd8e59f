// Where a run does otherwise than its case says.
use crate::outside::FailingCall;
use std::alloc::{AllocError, Global};

/// Where a run did otherwise than its case says.
#[derive(Drop)]
pub struct Difference {
    /// The call that fails in that run, if one does.
    pub call: Option<FailingCall>,
    /// The line of the file that says it.
    pub line: usize,
    pub expected: String,
    pub written: String,
}

impl Difference {
    /// One of a run in which no call fails.
    pub fn new(
        alloc: Global,
        line: usize,
        expected: &str,
        written: &str,
    ) -> Result<Difference, AllocError> {
        Ok(Difference {
            call: None,
            line,
            expected: String::from_str(alloc, expected)?,
            written: String::from_str(alloc, written)?,
        })
    }
}
