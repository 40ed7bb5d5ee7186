use std::io;

/// Why nothing is timed any more: a refused call is fast, and says nothing of one that is carried out.
pub fn refused() -> io::Error {
    io::Error::other("a call that is timed was refused")
}
