ghost use Rattle.std.specs.Prelude.{◌≡◌, ℕ, ◌*◌, ◌/◌, ◌%◌, ◌≤◌, IsSome, IfSome, IfNone};
ghost use Rattle.std.specs.Option.{option_map_or};
ghost use Rattle.std.specs.FinMap as map;
ghost use Rattle.fs_rules.specs.Contents.{blocks_below, resized, zeroed_from};

use fs_rules::{BLOCK_BYTES, Blocks, Bytes};
use std::alloc::Global;

/// Sets the size of a file from an old one: a smaller one removes the blocks that begin behind it and zeroes
/// the rest of the last one, a greater one stores none. It takes no memory.
pub fn resize(alloc: Global, blocks: &mut Blocks, old: u32, new: u32)
    ensures { blocks.new ≡ resized old new blocks.old }
{
    if new < old {
        remove_behind(blocks, new);
        zero_rest(alloc, blocks, new);
    }
}

// Removes the blocks that begin at a size or behind it, from the last one down.
fn remove_behind(blocks: &mut Blocks, size: u32)
    ensures { blocks.new ≡ blocks_below size blocks.old }
{
    while let Some(last) = last_behind(blocks, size) {
        blocks.remove(last);
    }
}

// The greatest index, where its block begins at a size or behind it.
fn last_behind(blocks: &Blocks, size: u32) -> Option<u32>
    ensures some { IfSome result (λ last. (size ≤ 4096 * last) × IsSome (map.get blocks.now last)) }
    ensures none { IfNone result (blocks_below size blocks.now ≡ blocks.now) }
{
    let last = blocks.last_key()?;
    let begin = last as u64 * BLOCK_BYTES as u64;
    if begin < size as u64 {
        return None;
    }
    Some(last)
}

// Zeroes the bytes at a size and behind it in the block where it lies.
fn zero_rest(alloc: Global, blocks: &mut Blocks, size: u32)
    ensures { blocks.new ≡ option_map_or (λ block. map.insert blocks.old (size / 4096) (zeroed_from (size % 4096) block)) (map.get blocks.old (size / 4096)) blocks.old }
{
    let index = size / BLOCK_BYTES;
    if let Some(block) = blocks.replace(index, Bytes::new(alloc)) {
        blocks.replace(index, zeroed(block, (size % BLOCK_BYTES) as usize));
    }
}

// A block with zeros from a place on.
fn zeroed(block: Bytes, from: usize) -> Bytes
    ensures { result ≡ zeroed_from from block }
{
    let mut bytes = block.into_vec();
    if from < bytes.len() {
        bytes[from..].fill(0);
    }
    Bytes::from(bytes)
}
