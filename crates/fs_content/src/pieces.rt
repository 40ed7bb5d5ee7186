ghost use Rattle.std.specs.Prelude.{◌≡◌, ◌+◌, ◌^◌, ◌<◌, ◌≤◌, ◌++◌, OnOk, vec_len};
ghost use Rattle.fs_content.specs.Pieces.{block_at, piece};

use fs_rules::{Blocks, NoMemory};

// The bytes of the block at an index: none where it is not stored.
pub(crate) fn stored_block(blocks: &Blocks, index: u32) -> &[u8]
    ensures { result.now ≡ block_at blocks.now index }
{
    match blocks.get(index) {
        Some(block) => block.as_slice(),
        None => &[],
    }
}

// So many bytes of a block from a place on, at the end of `bytes`, with zeros behind the block's end.
pub(crate) fn append_piece(
    bytes: &mut Vec<u8>,
    block: &[u8],
    from: usize,
    count: usize,
) -> Result<(), NoMemory>
    requires place { from + count ≤ 2 ^ 32 }
    requires room { vec_len bytes.old + count ≤ 2 ^ 33 }
    ensures items { OnOk result (bytes.new.items ≡ bytes.old.items ++ piece block.now from count) }
    ensures len { OnOk result (vec_len bytes.new ≡ vec_len bytes.old + count) }
{
    let filled = bytes.len() + count;
    let end = block.len().min(from + count);
    bytes.extend_from_slice(&block[from.min(end)..end])?;
    bytes.resize(filled, 0)?;
    Ok(())
}
