use std::error::Error;
use std::fmt;

/// A call on an object of the outside failed. Such an object counts its faults: this answer comes
/// only where the count rose in that call, or, of a disk, where it is starved of memory
/// (`docs/PROMISES.md`, "Counted faults").
#[derive(Clone, Copy, Debug, PartialEq, Eq)]
pub struct Failed;

impl fmt::Display for Failed {
    fn fmt<W: fmt::Write>(&self, f: &mut fmt::Formatter<W>) -> fmt::Result {
        write!(f, "a call on the outside failed")
    }
}

impl Error for Failed {}
