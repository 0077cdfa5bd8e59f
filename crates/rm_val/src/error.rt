// What a call answers where it can't do what it was asked.

/// There was no memory.
#[derive(Clone, Copy, Debug, PartialEq, Eq)]
pub struct NoMemory;

/// There was no room.
#[derive(Clone, Copy, Debug, PartialEq, Eq)]
pub struct Full;

/// The error status of a response, under the names of RFC 1905, section 3.
#[derive(Clone, Copy, Debug, PartialEq, Eq)]
pub enum ErrorStatus {
    NoError = 0,
    TooBig = 1,
    NoSuchName = 2,
    BadValue = 3,
    ReadOnly = 4,
    GenErr = 5,
    NoAccess = 6,
    WrongType = 7,
    WrongLength = 8,
    WrongEncoding = 9,
    WrongValue = 10,
    NoCreation = 11,
    InconsistentValue = 12,
    ResourceUnavailable = 13,
    CommitFailed = 14,
    UndoFailed = 15,
    AuthorizationError = 16,
    NotWritable = 17,
    InconsistentName = 18,
}

impl ErrorStatus {
    ghost use Rattle.std.specs.Prelude.{◌≡◌};
    ghost use Rattle.rm_val.specs.ErrorStatus.{number_of};

    /// The number of the status in a message, 0 to 18 (RFC 1905, section 3).
    pub fn number(self) -> i32
        ensures { result ≡ number_of self }
    {
        self as i32
    }
}
