ghost use Rattle.std.specs.Prelude.{◌≡◌, IfOk};
ghost use Rattle.fs_rules.specs.Contents.{part};

use crate::pieces::{append_piece, stored_block};
use fs_rules::{BLOCK_BYTES, Blocks, Bytes, NoMemory};
use std::alloc::Global;

/// So many bytes of a file from a place on (RFC 1094, section 2.2.7): a block that is not stored reads as
/// zeros. The caller sees to it that they lie below the file's size.
pub fn read_part(alloc: Global, blocks: &Blocks, offset: u32, count: u32) -> Result<Bytes, NoMemory>
    ensures { IfOk result (λ bytes. bytes ≡ part blocks.now offset count) }
{
    let mut bytes = Vec::with_capacity(alloc, count as usize)?;
    while bytes.len() < count as usize {
        let read = bytes.len();
        let place = offset as usize + read;
        let from = place % BLOCK_BYTES as usize;
        let length = (BLOCK_BYTES as usize - from).min(count as usize - read);
        let block = stored_block(blocks, (place / BLOCK_BYTES as usize) as u32);
        append_piece(&mut bytes, block, from, length)?;
    }
    Ok(Bytes::from(bytes))
}
