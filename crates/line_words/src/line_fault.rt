ghost use Rattle.std.specs.Prelude.{◌≡◌};
ghost use Rattle.line_words.specs.Digits.{fault_of};

use hex::FromHexError;
use std::error::Error;
use std::fmt;

/// Why a line was not read.
#[derive(Clone, Copy, Debug, PartialEq, Eq)]
pub enum LineFault {
    /// It is outside the grammar.
    Bad,
    /// There is no memory for its bytes.
    NoMemory,
}

impl fmt::Display for LineFault {
    fn fmt<W: fmt::Write>(&self, f: &mut fmt::Formatter<W>) -> fmt::Result {
        match self {
            LineFault::Bad => write!(f, "outside the grammar"),
            LineFault::NoMemory => write!(f, "no memory"),
        }
    }
}

impl Error for LineFault {}

impl From<FromHexError> for LineFault {
    ghost from_gives = { λ refusal fault. fault ≡ fault_of refusal };

    fn from(refusal: FromHexError) -> LineFault {
        match refusal {
            FromHexError::OutOfMemory => LineFault::NoMemory,
            _ => LineFault::Bad,
        }
    }
}
