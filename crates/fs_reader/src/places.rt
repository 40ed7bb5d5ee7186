ghost use Rattle.std.specs.Prelude.{◌≡◌, ◌<◌, ◌≤◌, length};
ghost use Rattle.fs_image.specs.Places.{block_bytes, inode_bytes, inode_map};
ghost use Rattle.fs_image.specs.Stands.{IsBlock};
ghost use Rattle.mini_tx.specs.FlatMemory.{bytes_at};
ghost use Rattle.fs_reader.specs.Sizes.{AreSized};

use fs_layout::{BITMAPS_AT, BLOCK_BYTES, INODE_BITMAP_AT, INODE_BYTES, Layout, Reference};
use fs_rules::{Bytes, Geometry};

// The bytes of a block.
pub(crate) fn block_of<'a>(geometry: &Geometry, parts: &'a [Bytes], at: Reference) -> &'a [u8]
    requires sized { AreSized geometry.now parts.now }
    requires inside { IsBlock geometry.now at }
    ensures { result.now ≡ block_bytes geometry.now parts.now at }
{
    let layout = Layout {
        blocks: geometry.blocks,
        inodes: geometry.inodes,
    };
    let from = layout.block_at(at.block) as usize;
    &parts[at.memory as usize].as_slice()[from..from + BLOCK_BYTES]
}

// The bytes of the record of an inode.
pub(crate) fn record_bytes<'a>(
    geometry: &Geometry,
    parts: &'a [Bytes],
    memory: u32,
    inode: u32,
) -> &'a [u8]
    requires sized { AreSized geometry.now parts.now }
    requires memory { memory < geometry.now.memories }
    requires inode { inode < geometry.now.inodes }
    ensures { result.now ≡ inode_bytes parts.now memory inode }
{
    let layout = Layout {
        blocks: geometry.blocks,
        inodes: geometry.inodes,
    };
    let at = layout.inode_at(inode) as usize;
    &parts[memory as usize].as_slice()[at..at + INODE_BYTES]
}

// The map of the inodes of a memory node.
pub(crate) fn inode_map<'a>(geometry: &Geometry, parts: &'a [Bytes], memory: u32) -> &'a [u8]
    requires sized { AreSized geometry.now parts.now }
    requires memory { memory < geometry.now.memories }
    ensures value { result.now ≡ inode_map parts.now memory }
    ensures len { length result.now ≡ 2048 }
{
    let end = BITMAPS_AT as usize + BLOCK_BYTES;
    &parts[memory as usize].as_slice()[INODE_BITMAP_AT as usize..end]
}

// The map of the blocks of an image.
pub(crate) fn block_map(part: &Bytes) -> &[u8]
    requires { 8192 ≤ length part.now }
    ensures value { result.now ≡ bytes_at part.now 4096 2048 }
    ensures len { length result.now ≡ 2048 }
{
    &part.as_slice()[BITMAPS_AT as usize..INODE_BITMAP_AT as usize]
}
