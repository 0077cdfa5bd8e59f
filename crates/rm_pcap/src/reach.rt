/// How far the records of a capture have been read.
#[derive(Clone, Copy, Debug, PartialEq, Eq)]
pub struct Reach {
    /// The time in nanoseconds that stands at the lead; None where it will be that of the first record.
    pub base: Option<u64>,
    /// The moment of the last record's frame, in milliseconds; before the first record, the lead.
    pub last: u32,
    /// How many records there were.
    pub count: u32,
    /// The offset of the next record.
    pub at: u64,
}
