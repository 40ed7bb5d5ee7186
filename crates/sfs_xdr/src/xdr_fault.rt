use std::error::Error;
use std::fmt;

/// Why an item could not be read.
#[derive(Clone, Copy, Debug, PartialEq, Eq)]
pub enum XdrFault {
    /// The bytes end before the item with its padding does.
    Short,
    /// The length word is above the limit that the caller gave.
    TooLong,
    /// A boolean is neither 0 nor 1.
    NotBool,
}

impl fmt::Display for XdrFault {
    fn fmt<W: fmt::Write>(&self, f: &mut fmt::Formatter<W>) -> fmt::Result {
        match self {
            XdrFault::Short => write!(f, "the bytes end within an item"),
            XdrFault::TooLong => write!(f, "a length is above its limit"),
            XdrFault::NotBool => write!(f, "a boolean is neither 0 nor 1"),
        }
    }
}

impl Error for XdrFault {}
