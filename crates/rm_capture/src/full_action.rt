// What a buffer does where it is full.
ghost use Rattle.rm_capture.specs.FullAction.{numbering};

use rm_columns::Numbered;

/// What a buffer does where it is full (RFC 1757, bufferControlFullAction).
#[derive(Clone, Copy, Debug, PartialEq, Eq)]
pub enum FullAction {
    /// lockWhenFull: it keeps no more packets.
    Lock = 1,
    /// wrapWhenFull: it drops the oldest packets.
    Wrap = 2,
}

impl Numbered for FullAction {
    ghost numbering = { numbering };

    fn variants() -> &'static [FullAction] {
        &[Self::Lock, Self::Wrap]
    }

    fn number(self) -> i32 {
        self as i32
    }
}
