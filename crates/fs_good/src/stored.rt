ghost use Rattle.std.specs.Prelude.{◌≡◌, ◌↔◌, ◌*◌, ◌+◌, ◌≤◌, ℕ, slice_index, IsTrue};
ghost use Rattle.fs_rules.specs.Good.{IsStored};
ghost use Rattle.fs_good.specs.Places.{IsStoredBlock};

use fs_rules::{BLOCK_BYTES, Blocks};

// Whether these are the stored blocks of a file of this size.
pub(crate) fn is_stored(size: u32, blocks: &Blocks) -> bool
    ensures { IsTrue result ↔ IsStored size blocks.now }
{
    for (index, bytes) in blocks.iter() {
        if !is_block(size, *index, bytes.as_slice()) {
            return false;
        }
    }
    true
}

// Whether such a file may have this block at this index.
fn is_block(size: u32, index: u32, bytes: &[u8]) -> bool
    ensures { IsTrue result ↔ IsStoredBlock size index bytes.now }
{
    let start = BLOCK_BYTES as usize * index as usize;
    let size = size as usize;
    start < size && bytes.len() == BLOCK_BYTES as usize && ends(size - start, bytes)
}

// Whether there are zeros behind so many bytes.
fn ends(kept: usize, bytes: &[u8]) -> bool
    ensures { IsTrue result ↔ ((i : ℕ) → kept ≤ i → slice_index bytes.now i ≡ 0) }
{
    for index in kept..bytes.len() {
        if bytes[index] != 0 {
            return false;
        }
    }
    true
}
