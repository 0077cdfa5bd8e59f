// What a reference to a key did.

/// What a reference to a key did to the rows of a table.
#[derive(Clone, Copy, PartialEq, Eq, Debug)]
pub enum Touch<K> {
    /// The key had a row, which was renewed.
    Held,
    /// A row was entered.
    Fresh,
    /// A row was entered, and that of this key gave way.
    Evicted(K),
}
