// The description of a control table's columns, as data.

/// The numbers from the least one to the greatest one.
#[derive(Clone, Copy)]
pub struct Span {
    pub least: i32,
    pub greatest: i32,
}

/// The values that a column takes.
#[derive(Clone, Copy)]
pub enum ColumnKind {
    /// the numbers of a span
    Number(Span),
    /// the numbers of either of two spans
    Either(Span, Span),
    /// the texts of at most so many octets
    Text(usize),
    /// every name
    AnyName,
    /// the names of the probe's interfaces
    Source,
}

/// What a column shows until it is set.
#[derive(Clone, Copy)]
pub enum Setting {
    Number(i32),
    /// the empty text
    Empty,
    /// the name 0.0
    NoName,
    /// the name of an interface
    Interface(u32),
}

/// When a column may be set.
#[derive(Clone, Copy, PartialEq, Eq)]
pub enum Settable {
    /// Its row is valid, or under creation.
    Always,
    /// Its row is under creation.
    UnderCreation,
}

/// A writable column beside the status.
#[derive(Clone, Copy)]
pub struct ColumnSheet {
    pub number: u32,
    pub kind: ColumnKind,
    pub settable: Settable,
    /// Whether a row is ready only once it was set.
    pub needed: bool,
    pub default: Setting,
}

/// A column of a description: its number, the values that it takes, and what it shows until it is set. It may be set while its
/// row is under creation; one that is `always` while its row is valid too, and one that is `needed` has to be.
#[macro_export]
macro_rules! column {
    ($number:expr, $kind:expr, $default:expr) => {
        $crate::column!($number, $kind, $default, UnderCreation, false)
    };
    ($number:expr, $kind:expr, $default:expr, always) => {
        $crate::column!($number, $kind, $default, Always, false)
    };
    ($number:expr, $kind:expr, $default:expr, needed) => {
        $crate::column!($number, $kind, $default, UnderCreation, true)
    };
    ($number:expr, $kind:expr, $default:expr, $settable:ident, $needed:expr) => {
        $crate::ColumnSheet {
            number: $number,
            kind: $kind,
            settable: $crate::Settable::$settable,
            needed: $needed,
            default: $default,
        }
    };
}

/// The numbers from the least one to the greatest one, as the values that a column takes.
#[macro_export]
macro_rules! numbers {
    ($least:expr, $greatest:expr) => {
        $crate::ColumnKind::Number($crate::Span {
            least: $least,
            greatest: $greatest,
        })
    };
}
