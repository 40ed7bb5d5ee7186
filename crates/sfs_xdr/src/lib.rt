//! XDR items (RFC 1014): numbers, booleans and opaque bytes, read from a slice and written to a buffer.
//!
//! A [`Reader`] goes through bytes from left to right and answers slices of its input; a refused call
//! leaves it where it was. A [`Writer`] appends items to one growing buffer; a refused call leaves it
//! as it was. Contracts see both as a list of bytes: those that are left, and those that are written.
//! What the items are spelled as is in `specs/Items.antt`; that reading takes just these spellings is
//! the contract of the laws.
#![tactic(auto)]

mod arg_fault;
mod codec;
mod counted;
mod item_fault;
mod laws;
mod numbers;
mod padding;
mod reader;
mod text;
mod writer;
mod xdr_fault;

pub use arg_fault::ArgFault;
pub use codec::Codec;
pub use counted::{Counted, read_many, write_many};
pub use item_fault::ItemFault;
pub use laws::{
    boolean_is_exact, opaque_is_exact, opaque_max_is_exact, word_is_exact,
    writers_are_in_the_grammar,
};
pub use numbers::write_words;
pub use reader::Reader;
pub use sfs_base::{Bytes, NoMemory};
pub use text::Text;
pub use writer::Writer;
pub use xdr_fault::XdrFault;

/// Each item takes a multiple of this many bytes (RFC 1014, section 2).
pub const UNIT: usize = 4;
