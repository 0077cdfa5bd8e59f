// Whether a channel is on.
ghost use Rattle.rm_filter.specs.DataControl.{numbering};

use rm_columns::Numbered;

/// Whether what a channel accepts flows on to its buffers and its event (RFC 1757, channelDataControl).
#[derive(Clone, Copy, Debug, PartialEq, Eq)]
pub enum DataControl {
    /// on: it does.
    On = 1,
    /// off: it doesn't.
    Off = 2,
}

impl Numbered for DataControl {
    ghost numbering = { numbering };

    fn variants() -> &'static [DataControl] {
        &[Self::On, Self::Off]
    }

    fn number(self) -> i32 {
        self as i32
    }
}
