ghost use Rattle.std.specs.Prelude.{◌≡◌, ◌+◌, ◌≤◌, ℕ, length, slice_index, IfOk};
ghost use Rattle.disk_model.specs.Crash.{Holds, put};

use sfs_base::NoMemory;
use std::alloc::Global;
use std::marker::Model;

/// How many bytes a frame has.
pub(crate) const FRAME_BYTES: usize = 4096;

/// A frame of bytes. A contract sees the list of them.
#[derive(Debug, Drop)]
pub(crate) struct Frame {
    bytes: Vec<u8>,
}

impl Model for Frame {
    ghost use Rattle.std.specs.Prelude.{◌≡◌, ℕ, List, vec_len};

    ghost Value = { List ℕ };

    ghost view = { λ f. f.bytes.items };

    ghost invariant = { λ f. vec_len f.bytes ≡ 4096 };
}

impl Frame {
    /// A frame of zeros.
    pub(crate) fn new(alloc: Global) -> Result<Frame, NoMemory>
        ensures { IfOk result (λ f. (place : ℕ) → slice_index f place ≡ 0) }
    {
        Ok(Frame {
            bytes: vec![in alloc; 0; FRAME_BYTES]?,
        })
    }

    /// Fills `into` with the bytes from `offset` on.
    pub(crate) fn read(&self, offset: usize, into: &mut [u8])
        requires { offset + length into.old ≤ 4096 }
        ensures { Holds (slice_index self.now) offset into.new }
    {
        let end = offset + into.len();
        into.copy_from_slice(&self.bytes[offset..end]);
    }

    /// Puts these bytes at `offset`.
    pub(crate) fn write(&mut self, offset: usize, from: &[u8])
        requires { offset + length from.now ≤ 4096 }
        ensures { (place : ℕ) → slice_index self.new place ≡ put (slice_index self.old) offset from.now place }
    {
        let end = offset + from.len();
        self.bytes[offset..end].copy_from_slice(from);
    }
}
