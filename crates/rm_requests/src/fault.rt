// Why a request file isn't read on.
/// Why a request file isn't read on.
#[derive(Clone, Copy, Debug, PartialEq, Eq)]
pub enum RequestsFault {
    /// That line, from 1, isn't of the form, or its moment falls.
    Line(u64),
    /// Line 1,000,001 is reached.
    TooLong,
    /// A read failed.
    Read,
}
