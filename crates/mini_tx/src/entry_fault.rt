use std::error::Error;
use std::fmt;

/// Why an entry could not be read.
#[derive(Clone, Copy, Debug, PartialEq, Eq)]
pub enum EntryFault {
    /// The bytes are no entry.
    Bad,
    /// Memory ran out.
    NoMemory,
}

impl fmt::Display for EntryFault {
    fn fmt<W: fmt::Write>(&self, f: &mut fmt::Formatter<W>) -> fmt::Result {
        match self {
            EntryFault::Bad => write!(f, "the bytes are no entry of a log"),
            EntryFault::NoMemory => write!(f, "no memory"),
        }
    }
}

impl Error for EntryFault {}
