// Which packets a channel accepts.
ghost use Rattle.rm_filter.specs.AcceptType.{numbering};

use rm_columns::Numbered;

/// Which packets a channel accepts (RFC 1757, channelAcceptType).
#[derive(Clone, Copy, Debug, PartialEq, Eq)]
pub enum AcceptType {
    /// acceptMatched: those that a filter of the channel matches.
    Matched = 1,
    /// acceptFailed: those that none does.
    Failed = 2,
}

impl Numbered for AcceptType {
    ghost numbering = { numbering };

    fn variants() -> &'static [AcceptType] {
        &[Self::Matched, Self::Failed]
    }

    fn number(self) -> i32 {
        self as i32
    }
}
