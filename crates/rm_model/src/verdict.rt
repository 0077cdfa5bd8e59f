// The judgement of a Set.
use rm_val::ErrorStatus;

/// What a judgement of a Set comes to (RFC 1905, section 4.2.5).
#[derive(Clone, Copy, Debug, PartialEq, Eq)]
pub enum Verdict {
    /// Nothing is wrong with any of its bindings.
    Fine,
    /// Something is wrong with a binding, and with none before it.
    Wrong {
        /// What is wrong with it.
        status: ErrorStatus,
        /// Its number in the whole Set, from 1.
        index: u32,
    },
}
