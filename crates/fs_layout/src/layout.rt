ghost use Rattle.std.specs.Prelude.{◌≡◌, ◌+◌, ◌*◌, ◌<◌, ◌≤◌};

use crate::inode::INODE_BYTES;

/// The greatest number of memory nodes of a cluster.
pub const MAX_MEMORIES: u32 = 8;

/// The greatest number of blocks of a memory node: what half a page of bits tells of.
pub const MAX_BLOCKS: u32 = 16_384;

/// The greatest number of inodes of a memory node: what half a page of bits tells of.
pub const MAX_INODES: u32 = 16_384;

/// The bytes of a block, and of a page of an image.
pub const BLOCK_BYTES: usize = 4_096;

/// The slots of a block of a directory.
pub const SLOTS_PER_BLOCK: usize = 15;

/// The references to blocks that one chaining block has.
pub const REFERENCES_PER_CHAIN: usize = 510;

/// The most bytes of a name in a directory.
pub const MAX_NAME_BYTES: usize = 255;

/// Where the superblock lies.
pub const SUPERBLOCK_AT: u32 = 0;

/// Where the page of bitmaps lies, the block bitmap first.
pub const BITMAPS_AT: u32 = PAGE;

/// Where the inode bitmap lies.
pub const INODE_BITMAP_AT: u32 = BITMAPS_AT + PAGE / 2;

/// Where the inode records lie.
pub const INODES_AT: u32 = 2 * PAGE;

/// The bytes of a page, as an address counts them.
const PAGE: u32 = BLOCK_BYTES as u32;

/// The bytes of an inode record, as an address counts them.
const RECORD: u32 = INODE_BYTES as u32;

/// The inode records of a page.
const RECORDS_PER_PAGE: u32 = PAGE / RECORD;

/// How large the image of a memory node is: its blocks and its inode records. An address counts the bytes
/// of the image from 0 (`docs/FORMATS.md`, "Images").
#[derive(Clone, Copy, Debug, PartialEq, Eq)]
pub struct Layout {
    pub blocks: u32,
    pub inodes: u32,
}

impl Layout {
    ghost use Rattle.fs_layout.specs.Places.{IsLayout, image_size, record_at, block_place};

    /// The bytes of the image.
    pub fn image_bytes(&self) -> u32
        requires { IsLayout self.now }
        ensures { result ≡ image_size self.now }
    {
        PAGE * (self.pages_before_blocks() + self.blocks)
    }

    /// Where the inode record with this index lies. All of it lies before the first block.
    pub fn inode_at(&self, index: u32) -> u32
        requires layout { IsLayout self.now }
        requires there { index < self.now.inodes }
        ensures exact { result ≡ record_at index }
        ensures before_blocks { result + 128 ≤ block_place self.now 0 }
    {
        INODES_AT + RECORD * index
    }

    /// Where the block with this number lies. All of it lies in the image.
    pub fn block_at(&self, block: u32) -> u32
        requires layout { IsLayout self.now }
        requires there { block < self.now.blocks }
        ensures exact { result ≡ block_place self.now block }
        ensures within { result + 4096 ≤ image_size self.now }
    {
        PAGE * (self.pages_before_blocks() + block)
    }

    // The pages of the superblock, of the bitmaps and of the inode records.
    fn pages_before_blocks(&self) -> u32
        requires { IsLayout self.now }
        ensures exact { PAGE * result ≡ block_place self.now 0 }
        ensures small { result ≤ 514 }
    {
        2 + self.inodes.div_ceil(RECORDS_PER_PAGE)
    }
}
