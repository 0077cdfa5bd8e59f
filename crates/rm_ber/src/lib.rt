//! Elements of SNMPv2c messages in the Basic Encoding Rules (X.690; RFC 1906, section 8): a reader, and a writer of
//! canonical ones.
#![tactic(auto)]

mod laws;
mod reader;
mod sizes;
mod tag;
mod writer;

pub use laws::{
    canonical_is_shortest, canonical_stands_alone, element_or_none, elements_are_shortest,
    elements_read_back, no_element_in_front, octets_are_positional, one_element, one_value,
    subidentifiers_are_positional, subidentifiers_read_back, value_or_none, values_are_spellable,
    values_read_back,
};
pub use reader::{Bad, Reader};
pub use sizes::{integer_element_size, length_size, name_size, octets_element_size, size};
pub use writer::{Room, Writer};
