//! Laws of flat memories and the trees that they stand for.
ghost use Rattle.std.specs.Prelude.{◌≡◌};
ghost use Rattle.fs_image.specs.Counts.{FreeBlocksAreFreeBits};
ghost use Rattle.fs_image.specs.Edits.{EditsAreShown};
ghost use Rattle.fs_image.specs.FirstFree.{FirstFreeIsLowest, LowestIsFound};
ghost use Rattle.fs_image.specs.Fresh.{FreshStands};
ghost use Rattle.fs_image.specs.Laws.{OneTree};
ghost use Rattle.fs_image.specs.Owners.{OnlyIsInverse, TakenIsInverse};
ghost use Rattle.fs_image.specs.Records.{ReadChainsAreChains, ReadSlotsAreSlots, SetBitsAreCounted, SlotsAreFoundAlike};
ghost use Rattle.fs_image.specs.Regions.{NumbersAreApart, RegionsAreApart, RegionsAreInside, WritesStayApart};
ghost use Rattle.fs_image.specs.Stamps.{StampIsInRecord, StampsTell};
ghost use Rattle.fs_image.specs.Words.{RecordsHaveBytes};
ghost use Rattle.fs_image.specs.Written.{WrittenIsShown};

use fs_layout::{BITMAPS_AT, INODE_BITMAP_AT, INODES_AT, SUPERBLOCK_AT};

/// Where only the files of edits are touched, and each of these is shown as the edits leave it, the tree after the
/// edits is shown.
pub fn edits_are_shown()
    ensures { EditsAreShown }
{}

/// A flat memory stands for at most one tree of a cluster.
pub fn one_tree()
    ensures { OneTree }
{}

/// The images of a cluster that was just formatted stand for the fresh tree, whatever its geometry.
pub fn fresh_stands()
    ensures { FreshStands }
{}

/// Two regions of an image share no byte.
pub fn regions_are_apart()
    ensures { RegionsAreApart }
{}

/// The places of the first page, of the maps and of the records are the constants that name them.
pub fn regions_have_constants()
    ensures { (SUPERBLOCK_AT ≡ 0) × (BITMAPS_AT ≡ 4096) × (INODE_BITMAP_AT ≡ 6144) × (INODES_AT ≡ 8192) }
{}

/// A region lies within its image.
pub fn regions_are_inside()
    ensures { RegionsAreInside }
{}

/// A file's number is of one memory node and one inode.
pub fn numbers_are_apart()
    ensures { NumbersAreApart }
{}

/// A write item changes the bytes at its place, and nothing that shares no byte with it.
pub fn writes_stay_apart()
    ensures { WritesStayApart }
{}

/// A free block that is taken for a part without one has that part, and all else is as it was.
pub fn taken_is_inverse()
    ensures { TakenIsInverse }
{}

/// Blocks that are given up have no part, and all else is as it was.
pub fn only_is_inverse()
    ensures { OnlyIsInverse }
{}

/// The first free number from a memory node on is that of the lowest free bit of the maps of the inodes, from there
/// on in a circle.
pub fn first_free_is_lowest()
    ensures { FirstFreeIsLowest }
{}

/// What a search of a map finds is its lowest free bit.
pub fn lowest_is_found()
    ensures { LowestIsFound }
{}

/// The free blocks of the tree are the free bits of the maps of the blocks.
pub fn free_blocks_are_free_bits()
    ensures { FreeBlocksAreFreeBits }
{}

/// A file that is changed is shown where its record is written, and each of its parts is written, or kept where it was.
pub fn written_is_shown()
    ensures { WrittenIsShown }
{}

/// A file's stamp is the bytes 24 to 39 of its record.
pub fn stamp_is_in_record()
    ensures { StampIsInRecord }
{}

/// Records with one stamp have the same generation, blocks in use and change number.
pub fn stamps_tell()
    ensures { StampsTell }
{}

/// A chaining block that was read can be written.
pub fn read_chains_are_chains()
    ensures { ReadChainsAreChains }
{}

/// The slots of a block that were read can be written.
pub fn read_slots_are_slots()
    ensures { ReadSlotsAreSlots }
{}

/// A free bit that is set is one free bit less, and a used one that is freed one more.
pub fn set_bits_are_counted()
    ensures { SetBitsAreCounted }
{}

/// The slot with a name and the lowest empty one are found at the same place in the slots of blocks and in those of the
/// rules.
pub fn slots_are_found_alike()
    ensures { SlotsAreFoundAlike }
{}

/// Each record of a good tree whose numbers fit their words has bytes.
pub fn records_have_bytes()
    ensures { RecordsHaveBytes }
{}
