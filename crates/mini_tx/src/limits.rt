/// The greatest number that a length or a count in an entry may be: they are words.
pub(crate) const LONGEST: u32 = 4_294_967_295;

/// The most items of a minitransaction.
pub const MAX_ITEMS: usize = 512;

/// The most bytes of all items of a minitransaction, where a read item counts its length.
pub const MAX_ITEM_BYTES: usize = 1_048_576;

/// The bytes of a number (RFC 1014, section 3.2).
pub(crate) const NUMBER_BYTES: usize = 4;

/// The bytes of an identifier: a number, and two of eight bytes.
pub(crate) const ID_BYTES: usize = 20;
