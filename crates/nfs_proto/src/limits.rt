/// The most bytes of a name in a call. The file system itself takes fewer (`docs/FORMATS.md`, "Names").
pub const MAX_NAME_BYTES: u32 = 1_024;

/// The most bytes of a path (RFC 1094, section 2.3.12).
pub const MAX_PATH_BYTES: u32 = 1_024;

/// The most bytes that one call reads or writes (RFC 1094, section 2.3).
pub const MAX_DATA_BYTES: u32 = 8_192;

/// The last procedure of the program (RFC 1094, section 2.2).
pub const LAST_PROCEDURE: u32 = 17;
