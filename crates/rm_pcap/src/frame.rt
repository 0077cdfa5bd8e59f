/// A frame of a capture.
#[derive(Clone, Copy)]
pub struct Frame<'a> {
    /// The octets captured, the destination address first.
    pub bytes: &'a [u8],
    /// How many octets it had where it was captured, its check sequence left out; never fewer than were captured.
    pub original: u32,
    /// Its moment, in milliseconds.
    pub moment: u32,
    /// Its number in the capture, from 1.
    pub number: u32,
    /// The number of the interface that it is of, from 1.
    pub interface: u32,
}

/// What stands next in a capture.
#[derive(Clone, Copy)]
pub enum Step<'a> {
    /// A whole record, with this frame.
    Next(Frame<'a>),
    /// The end of the file.
    End,
    /// A record that the file cuts short: the offset where it begins.
    Cut(u64),
}
