//! The limits of the texts, each stated here alone.

/// The most bytes of a line, its newline not counted. The longest line that has a spelling is shorter:
/// it is an arrival with the bytes of a whole datagram, two digits each.
pub const MAX_LINE_BYTES: usize = 140_000;

/// The most lines of a schedule, or of a transcript that is read: a line's number fits a u32.
pub const MAX_LINES: u64 = 4_294_967_295;

/// The most bytes of a datagram: its length fits the 16 bits that UDP has for it.
pub const MAX_DATAGRAM_BYTES: usize = 65_535;
