ghost use Rattle.std.specs.Prelude.{◌≡◌, List, ℕ};
ghost use Rattle.sfs_base.specs.Reading.{Gives};
ghost use Rattle.sfs_xdr.specs.Reading.{word_of, boolean_of, opaque_of, opaque_max_of};

use crate::UNIT;
use crate::padding::padding_of;
use crate::xdr_fault::XdrFault;
use std::marker::Model;

/// Reads items from a slice, from left to right. A contract sees the bytes that are left. A call that
/// is refused leaves the reader where it was, and no call takes memory.
#[derive(Debug, Drop)]
pub struct Reader<'a> {
    bytes: &'a [u8],
}

impl<'a> Model for Reader<'a> {
    ghost Value = { List ℕ };

    ghost view = { λ r. r.bytes.now };
}

impl<'a> Reader<'a> {
    /// A reader of all these bytes.
    pub fn new(bytes: &'a [u8]) -> Reader<'a>
        ensures { result ≡ bytes.now }
    {
        Reader { bytes }
    }

    /// A number (RFC 1014, section 3.2). `Short` where fewer than four bytes are left.
    #[tactic(auto, unfolding(crate::specs::Reading::number_of))]
    pub fn u32(&mut self) -> Result<u32, XdrFault>
        ensures { Gives (λ n. n) result self.old self.new (word_of self.old) }
    {
        if self.bytes.len() < UNIT {
            return Err(XdrFault::Short);
        }
        let (front, rest) = self.bytes.split_at(UNIT);
        let number = u32::from_be_bytes([front[0], front[1], front[2], front[3]]);
        self.bytes = rest;
        Ok(number)
    }

    /// A boolean (RFC 1014, section 3.4). `Short` as for a number; `NotBool` for a word above 1.
    #[tactic(auto, unfolding(crate::specs::Reading::boolean_of))]
    pub fn boolean(&mut self) -> Result<bool, XdrFault>
        ensures { Gives (λ b. b) result self.old self.new (boolean_of self.old) }
    {
        let start = self.bytes;
        match self.u32()? {
            0 => Ok(false),
            1 => Ok(true),
            _ => {
                self.bytes = start;
                Err(XdrFault::NotBool)
            }
        }
    }

    /// `n` bytes, and those that fill them up to a multiple of four, which may have any values (RFC 1014,
    /// section 3.9). `Short` where the bytes that are left end before the last of these.
    #[tactic(auto, unfolding(crate::specs::Reading::opaque_of))]
    pub fn opaque(&mut self, n: usize) -> Result<&'a [u8], XdrFault>
        ensures { Gives (λ s. s.now) result self.old self.new (opaque_of n self.old) }
    {
        let padding = padding_of(n);
        if self.bytes.len() < n || self.bytes.len() - n < padding {
            return Err(XdrFault::Short);
        }
        let (body, rest) = self.bytes.split_at(n);
        self.bytes = &rest[padding..];
        Ok(body)
    }

    /// A length word of at most `max`, and that many bytes with those that fill them up (RFC 1014,
    /// section 3.10). `TooLong` where the word is above `max`, which is found before any byte behind it is
    /// looked at; else `Short` where the bytes that are left end before the item does.
    #[tactic(auto, unfolding(crate::specs::Reading::opaque_max_of))]
    pub fn opaque_max(&mut self, max: u32) -> Result<&'a [u8], XdrFault>
        ensures { Gives (λ s. s.now) result self.old self.new (opaque_max_of max self.old) }
    {
        let start = self.bytes;
        let length = self.u32()?;
        if max < length {
            self.bytes = start;
            return Err(XdrFault::TooLong);
        }
        let body = self.opaque(length as usize);
        if body.is_err() {
            self.bytes = start;
        }
        body
    }

    /// The bytes that are left.
    pub fn rest(&self) -> &'a [u8]
        ensures { result.now ≡ self.now }
    {
        self.bytes
    }
}
