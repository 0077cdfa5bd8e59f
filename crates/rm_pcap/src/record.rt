use crate::reach::Reach;

/// The octets of a record's header: seconds, a fraction, the included length and the original length.
pub const RECORD_HEADER: usize = 16;

/// The greatest length of a frame.
pub const MOST_LENGTH: u32 = 262_144;

/// The most records of a capture.
pub const MOST_RECORDS: u32 = 100_000_000;

/// What the header of a record says, behind a reach.
#[derive(Clone, Copy)]
pub struct Heading {
    /// How many octets were captured.
    pub included: u32,
    /// How many octets the frame had where it was captured, never fewer than were captured.
    pub original: u32,
    /// The time in nanoseconds that stands at the lead.
    pub base: u64,
    /// The moment of the frame, in milliseconds; None where it has more than 32 bits.
    pub moment: Option<u32>,
}

/// What of a record stands next in a capture.
#[derive(Clone, Copy)]
pub enum Part {
    /// All of it, whose header says this.
    Whole(Heading),
    /// Nothing: the file ends.
    End,
    /// A part, where the file cuts it short.
    Cut,
}

/// The numbers of a record.
#[derive(Clone, Copy)]
pub struct Record {
    /// How many octets were captured.
    pub included: u32,
    /// How many octets the frame had where it was captured, never fewer than were captured.
    pub original: u32,
    /// How far the records reach with this one.
    pub after: Reach,
}

/// What was seen next in a capture.
#[derive(Clone, Copy)]
pub enum Seen {
    /// A whole record.
    Whole(Record),
    /// The end of the file.
    End,
    /// A record that the file cuts short.
    Cut,
}
