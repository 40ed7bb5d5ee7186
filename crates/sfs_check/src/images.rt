ghost use Rattle.std.specs.Prelude.{◌≡◌, ◌-◌, ◌<◌, ◌≤◌, ◌↔◌, ℕ, false, length, replicate, IsTrue};
ghost use Rattle.fs_bitmap.specs.Bits.{is_used};
ghost use Rattle.fs_image.specs.Places.{layout_of};
ghost use Rattle.fs_image.specs.Stands.{IsImage};
ghost use Rattle.fs_layout.specs.Places.{block_place, image_size, record_at};
ghost use Rattle.fs_layout.specs.Superblocks.{SpellsSuperblock};
ghost use Rattle.fs_reader.specs.Numbers.{AreImages};
ghost use Rattle.fs_rules.specs.Geometry.{IsWithinLimits};
ghost use Rattle.mini_tx.specs.FlatMemory.{bytes_at};
ghost use Rattle.sfs_check.specs.Fillings.{AreFreeFrom, HasZeros, IsFilled, superblock_of};

use fs_layout::{
    BITMAPS_AT, INODE_BITMAP_AT, INODE_BYTES, INODES_AT, Layout, MAX_BLOCKS, SUPERBLOCK_AT,
    Superblock, are_zeros, read_superblock,
};
use fs_reader::is_marked;
use fs_rules::{Bytes, Geometry};

// Whether each image has its size, its superblock, and zeros where nothing lies.
pub(crate) fn are_images(geometry: &Geometry, parts: &[Bytes]) -> bool
    requires limits { IsWithinLimits geometry.now }
    requires memories { length parts.now ≡ geometry.now.memories }
    ensures { IsTrue result ↔ AreImages geometry.now parts.now }
{
    for memory in 0..geometry.memories {
        if !is_image(geometry, parts, memory) {
            return false;
        }
    }
    true
}

// Whether the image of a memory node has its size, its superblock, and zeros where nothing lies.
fn is_image(geometry: &Geometry, parts: &[Bytes], memory: u32) -> bool
    requires limits { IsWithinLimits geometry.now }
    requires memories { length parts.now ≡ geometry.now.memories }
    requires there { memory < geometry.now.memories }
    ensures { IsTrue result ↔ IsImage geometry.now parts.now memory }
{
    let bytes = parts[memory as usize].as_slice();
    is_sized(geometry, bytes) && is_filled(geometry, bytes, memory)
}

// Whether an image has its size.
fn is_sized(geometry: &Geometry, bytes: &[u8]) -> bool
    requires { IsWithinLimits geometry.now }
    ensures { IsTrue result ↔ (length bytes.now ≡ image_size (layout_of geometry.now)) }
{
    bytes.len() == layout(geometry).image_bytes() as usize
}

// How large the image of a memory node is.
fn layout(geometry: &Geometry) -> Layout
    ensures { result ≡ layout_of geometry.now }
{
    Layout {
        blocks: geometry.blocks,
        inodes: geometry.inodes,
    }
}

// Whether an image of this size has its superblock, and zeros where nothing lies.
fn is_filled(geometry: &Geometry, bytes: &[u8], memory: u32) -> bool
    requires limits { IsWithinLimits geometry.now }
    requires sized { length bytes.now ≡ image_size (layout_of geometry.now) }
    ensures { IsTrue result ↔ IsFilled geometry.now memory bytes.now }
{
    let page = &bytes[SUPERBLOCK_AT as usize..BITMAPS_AT as usize];
    has_superblock(geometry, page, memory) && has_zeros(geometry, bytes)
}

// Whether a first page tells that it is this memory node's of this cluster.
fn has_superblock(geometry: &Geometry, page: &[u8], memory: u32) -> bool
    ensures { IsTrue result ↔ SpellsSuperblock (superblock_of geometry.now memory) page.now }
{
    let own = Superblock {
        memory,
        memories: geometry.memories,
        blocks: geometry.blocks,
        inodes: geometry.inodes,
    };
    read_superblock(page) == Some(own)
}

// Whether an image of this size has zeros where nothing lies: behind the last bits of its maps, and behind its last
// record.
fn has_zeros(geometry: &Geometry, bytes: &[u8]) -> bool
    requires limits { IsWithinLimits geometry.now }
    requires sized { length bytes.now ≡ image_size (layout_of geometry.now) }
    ensures { IsTrue result ↔ HasZeros geometry.now bytes.now }
{
    has_free_bits(geometry, bytes) && are_zeros(behind_records(geometry, bytes))
}

// Whether the bits behind the last ones of both maps are free.
fn has_free_bits(geometry: &Geometry, bytes: &[u8]) -> bool
    requires limits { IsWithinLimits geometry.now }
    requires sized { length bytes.now ≡ image_size (layout_of geometry.now) }
    ensures { IsTrue result ↔ (AreFreeFrom (bytes_at bytes.now 4096 2048) geometry.now.blocks
        × AreFreeFrom (bytes_at bytes.now 6144 2048) geometry.now.inodes) }
{
    let blocks = &bytes[BITMAPS_AT as usize..INODE_BITMAP_AT as usize];
    let inodes = &bytes[INODE_BITMAP_AT as usize..INODES_AT as usize];
    are_free(blocks, geometry.blocks) && are_free(inodes, geometry.inodes)
}

// Whether the bits of a map from this one on are free.
fn are_free(map: &[u8], from: u32) -> bool
    requires { length map.now ≡ 2048 }
    ensures { IsTrue result ↔ AreFreeFrom map.now from }
{
    for bit in from..MAX_BLOCKS {
        if is_marked(map, bit) {
            return false;
        }
    }
    true
}

// What lies behind the last record, up to the first block.
fn behind_records<'a>(geometry: &Geometry, bytes: &'a [u8]) -> &'a [u8]
    requires limits { IsWithinLimits geometry.now }
    requires sized { length bytes.now ≡ image_size (layout_of geometry.now) }
    ensures value { result.now ≡ bytes_at bytes.now (record_at geometry.now.inodes)
        (block_place (layout_of geometry.now) 0 - record_at geometry.now.inodes) }
    ensures len { length result.now ≡ block_place (layout_of geometry.now) 0 - record_at geometry.now.inodes }
{
    let from = INODES_AT as usize + INODE_BYTES * geometry.inodes as usize;
    let end = layout(geometry).block_at(0) as usize;
    &bytes[from..end]
}
