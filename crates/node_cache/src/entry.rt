use fs_chain::ChainBlock;
use fs_dir::Slots;
use fs_layout::Attrs;
use sfs_base::Seq;

/// A chaining block that is held, by its index in the list of its file's chaining blocks, from 0.
#[derive(Debug, Drop)]
pub struct HeldChain {
    pub index: u32,
    pub chain: ChainBlock,
}

/// How many blocks of a directory are read together.
pub const BLOCKS_PER_GROUP: u32 = 64;

/// The slots of a group of a directory's blocks, by the index of the group, from 0: 15 of each of the
/// [`BLOCKS_PER_GROUP`] blocks that the directory has there, in order.
#[derive(Debug, Drop)]
pub struct HeldGroup {
    pub group: u32,
    pub slots: Slots,
}

/// Chaining blocks of a file.
pub type Chains = Seq<HeldChain>;

/// Groups of slots of a directory.
pub type Groups = Seq<HeldGroup>;

/// What is held of one file: its record, and those of its chaining blocks and groups of slots that were read.
#[derive(Debug, Drop)]
pub struct Entry {
    /// The number of the file.
    pub number: u32,
    pub attrs: Attrs,
    pub chains: Chains,
    pub groups: Groups,
}
