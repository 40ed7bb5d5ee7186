ghost use Rattle.std.specs.Prelude.{◌≡◌, ◌<◌, ◌^◌, List, ℕ, [], ◌++◌, length, IfOk, OnOk, OnErr};
ghost use Rattle.sfs_xdr.specs.Items.{word, boolean, opaque, opaque_var};

use crate::UNIT;
use crate::padding::padding_of;
use sfs_base::NoMemory;
use std::alloc::Global;
use std::marker::Model;

/// What fills an item up.
const ZEROS: [u8; UNIT] = [0; UNIT];

/// Writes items one behind another. A contract sees the bytes that are written. A call that is refused
/// leaves the writer as it was.
#[derive(Debug, Drop)]
pub struct Writer {
    out: Vec<u8>,
}

impl Model for Writer {
    ghost Value = { List ℕ };

    ghost view = { λ w. w.out.items };
}

impl Writer {
    /// A writer that has written nothing. It takes no memory.
    pub fn new(alloc: Global) -> Writer
        ensures { result ≡ [] }
    {
        Writer {
            out: Vec::new(alloc),
        }
    }

    /// A writer that has written nothing, with room for so many bytes: writing no more than these takes no
    /// further memory.
    pub fn with_room(alloc: Global, bytes: usize) -> Result<Writer, NoMemory>
        ensures { IfOk result (λ w. w ≡ []) }
    {
        Ok(Writer {
            out: Vec::with_capacity(alloc, bytes)?,
        })
    }

    /// A number (RFC 1014, section 3.2).
    pub fn u32(&mut self, value: u32) -> Result<(), NoMemory>
        ensures ok { OnOk result (self.new ≡ self.old ++ word value) }
        ensures err { OnErr result (self.new ≡ self.old) }
    {
        self.out.extend_from_slice(&value.to_be_bytes())?;
        Ok(())
    }

    /// A boolean (RFC 1014, section 3.4).
    pub fn boolean(&mut self, value: bool) -> Result<(), NoMemory>
        ensures ok { OnOk result (self.new ≡ self.old ++ boolean value) }
        ensures err { OnErr result (self.new ≡ self.old) }
    {
        self.u32(if value { 1 } else { 0 })
    }

    #[tactic(auto, using(crate::specs::ItemLemmas::opaque_in_two))]
    /// Bytes of a length that the reader knows, and zeros up to a multiple of four (RFC 1014, section 3.9).
    pub fn opaque(&mut self, bytes: &[u8]) -> Result<(), NoMemory>
        ensures ok { OnOk result (self.new ≡ self.old ++ opaque bytes.now) }
        ensures err { OnErr result (self.new ≡ self.old) }
    {
        let before = self.out.len();
        self.out.extend_from_slice(bytes)?;
        let padding = padding_of(bytes.len());
        match self.out.extend_from_slice(&ZEROS[..padding]) {
            Ok(()) => Ok(()),
            Err(_) => {
                self.out.truncate(before);
                Err(NoMemory)
            }
        }
    }

    /// The length of these bytes, the bytes, and zeros up to a multiple of four (RFC 1014, section 3.10).
    pub fn opaque_var(&mut self, bytes: &[u8]) -> Result<(), NoMemory>
        requires { length bytes.now < 2 ^ 32 }
        ensures ok { OnOk result (self.new ≡ self.old ++ opaque_var bytes.now) }
        ensures err { OnErr result (self.new ≡ self.old) }
    {
        let before = self.out.len();
        self.u32(bytes.len() as u32)?;
        let written = self.opaque(bytes);
        if written.is_err() {
            self.out.truncate(before);
        }
        written
    }

    /// What is written. It takes no memory.
    pub fn finish(self) -> Vec<u8>
        ensures { result.items ≡ self }
    {
        self.out
    }
}
