ghost use Rattle.std.specs.Prelude.{◌≡◌, ℕ, ◌+◌, ◌-◌, ◌*◌, ◌^◌, ◌<◌, ◌≤◌, List, ◌++◌, length, IfOk, OnOk, OnErr};
ghost use Rattle.std.specs.FinMap as map;
ghost use Rattle.fs_rules.specs.File.{BlockMap, used};
ghost use Rattle.fs_rules.specs.declared.content.Content.TheVariants.{Regular};
ghost use Rattle.fs_rules.specs.Contents.{written};
ghost use Rattle.fs_content.specs.Pieces.{piece};

use crate::pieces::{append_piece, stored_block};
use fs_rules::{BLOCK_BYTES, Blocks, Bytes, NoMemory};
use std::alloc::Global;

/// Writes bytes at an offset of a file (RFC 1094, section 2.2.9): the blocks in which they lie are stored.
/// On [`NoMemory`] the blocks are as before.
pub fn write_bytes(
    alloc: Global,
    blocks: &mut Blocks,
    offset: u32,
    bytes: &[u8],
) -> Result<(), NoMemory>
    requires { offset + length bytes.now < 2 ^ 32 }
    ensures ok { OnOk result (blocks.new ≡ written blocks.old offset bytes.now) }
    ensures err { OnErr result (blocks.new ≡ blocks.old) }
{
    if bytes.is_empty() {
        return Ok(());
    }
    let index = offset / BLOCK_BYTES;
    let from = offset % BLOCK_BYTES;
    let count = (BLOCK_BYTES - from).min(bytes.len() as u32);
    let (here, rest) = bytes.split_at(count as usize);
    let block = with_piece(alloc, stored_block(blocks, index), from as usize, here)?;
    let before = blocks.insert(index, block)?;
    match write_bytes(alloc, blocks, offset + count, rest) {
        Ok(()) => Ok(()),
        Err(no_memory) => {
            take_back(blocks, index, before);
            Err(no_memory)
        }
    }
}

// A new block with the bytes of another one, but for these from a place on.
fn with_piece(alloc: Global, block: &[u8], from: usize, bytes: &[u8]) -> Result<Bytes, NoMemory>
    requires { from + length bytes.now ≤ 4096 }
    ensures { IfOk result (λ whole. whole ≡ piece block.now 0 from ++ bytes.now ++ piece block.now (from + length bytes.now) (4096 - (from + length bytes.now))) }
{
    let mut whole = Vec::with_capacity(alloc, BLOCK_BYTES as usize)?;
    append_piece(&mut whole, block, 0, from)?;
    whole.extend_from_slice(bytes)?;
    let end = from + bytes.len();
    append_piece(&mut whole, block, end, BLOCK_BYTES as usize - end)?;
    Ok(Bytes::from(whole))
}

// Puts back what stood at an index before a block was stored there.
fn take_back(blocks: &mut Blocks, index: u32, before: Option<Bytes>)
    ensures { (m : BlockMap) (block : List ℕ) → blocks.old ≡ map.insert m index block → before ≡ map.get m index → blocks.new ≡ m }
{
    match before {
        Some(block) => {
            blocks.replace(index, block);
        }
        None => {
            blocks.remove(index);
        }
    }
}
