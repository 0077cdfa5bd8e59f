//! The parts of a case as text: statements, words and octets, frames and captures, names, values and datagrams, and what is
//! said of replies. It makes octets by a writer of its own, and knows nothing of the probe. The README.md of `cases` says the form.
#![tactic(auto)]

mod address;
mod ber;
mod binding;
mod capture;
mod frame;
mod names;
mod pieces;
mod request;
mod text;
mod trouble;

pub use address::peer;
pub use capture::Capture;
pub use frame::{Frame, read_frame};
pub use names::{Names, Syntax};
pub use pieces::{octets, with_digits, word_octets};
pub use request::Datagram;
pub use text::{Statement, first_number, first_word, number, statements};
pub use trouble::Trouble;
