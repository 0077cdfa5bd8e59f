/// Why a capture can't be read on. The offsets are those of octets in the file, from 0.
///
/// Magic, Version, LinkType and NoMemory come where a capture is begun; Included, Original, Late and TooMany where it is
/// read on; Read in both.
#[derive(Clone, Copy, Debug, PartialEq, Eq)]
pub enum PcapFault {
    /// The file doesn't begin with a magic number of the format, or has fewer than 4 octets.
    Magic,
    /// The version isn't 2.4, or the file has fewer than 8 octets.
    Version,
    /// The link type isn't 1, Ethernet, or the file has fewer than 24 octets.
    LinkType,
    /// A record says that more than 262,144 octets were captured: where it says so.
    Included(u64),
    /// A record says that its frame had more than 262,144 octets: where it says so.
    Original(u64),
    /// The moment of a record's frame has more than 32 bits: where the record begins.
    Late(u64),
    /// There are more than 100,000,000 records.
    TooMany,
    /// A read failed.
    Read,
    /// There was no room for the window.
    NoMemory,
}
