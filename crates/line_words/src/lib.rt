//! The words of a line of text, read and written one by one.
//!
//! A line has words with one space between two. [`Words`] are those that are left to be read: each reader takes
//! the next word, a numeral without a sign or a leading zero, a name, or bytes as two hexadecimal digits each.
//! [`append_words`] writes the words of a line, each a [`Word`]. A grammar above says of each line which words
//! it has; that reading takes just these follows from the lemmas of `proofs/`, a step a word.
#![tactic(auto)]

mod limits;
mod line_fault;
mod word;
mod words;
mod writing;

pub use limits::{MAX_DATAGRAM_BYTES, MAX_LINE_BYTES, MAX_LINES};
pub use line_fault::LineFault;
pub use word::Word;
pub use words::{Words, is_lower_hex, u32_of};
pub use writing::append_words;
