ghost use Rattle.std.specs.Prelude.{◌≡◌, IfSome, length};
ghost use Rattle.fs_layout.specs.declared.superblock.Superblock.{Superblock};
ghost use Rattle.fs_layout.specs.Superblocks.{SpellsSuperblock, superblock_words};

use crate::layout::BLOCK_BYTES;
use crate::words::{WORD_BYTES, read_words, write_words};
use crate::zeros::are_zeros;

/// What the first page of an image tells: whose it is, and how large the cluster is.
#[derive(Clone, Copy, Debug, PartialEq, Eq)]
pub struct Superblock {
    /// The index of the memory node.
    pub memory: u32,
    /// The number of memory nodes.
    pub memories: u32,
    /// The number of blocks of each memory node.
    pub blocks: u32,
    /// The number of inodes of each memory node.
    pub inodes: u32,
}

/// The first word: "SFSB".
const MARK: u32 = 0x5346_5342;

/// The second word: the version of the format.
const VERSION: u32 = 1;

/// The words before the zeros.
const HEADER_WORDS: usize = 6;

/// The bytes before the zeros.
const HEADER_BYTES: usize = WORD_BYTES * HEADER_WORDS;

/// What a first page tells (`docs/FORMATS.md`, "Images"). None exactly where the bytes are no such page.
pub fn read_superblock(bytes: &[u8]) -> Option<Superblock>
    ensures found { IfSome result (λ s. SpellsSuperblock s bytes.now) }
    ensures only { (s : Superblock) → SpellsSuperblock s bytes.now → result ≡ Some s }
{
    if bytes.len() != BLOCK_BYTES {
        return None;
    }
    let (header, zeros) = bytes.split_at(HEADER_BYTES);
    if are_zeros(zeros) {
        superblock_of(read_words(header)?)
    } else {
        None
    }
}

/// Writes the first page that tells this into a page of [`BLOCK_BYTES`] bytes.
pub fn write_superblock(s: &Superblock, into: &mut [u8])
    requires { length into.old ≡ 4096 }
    ensures { SpellsSuperblock s.now into.new }
{
    let (header, zeros) = into.split_at_mut(HEADER_BYTES);
    write_words(&words_of(s), header);
    zeros.fill(0);
}

// What a page that begins with these words tells.
#[tactic(auto, unfolding(crate::specs::Superblocks::superblock_words))]
fn superblock_of(words: [u32; HEADER_WORDS]) -> Option<Superblock>
    ensures found { IfSome result (λ s. words ≡ superblock_words s) }
    ensures only { (s : Superblock) → words ≡ superblock_words s → result ≡ Some s }
{
    let [_, _, memory, memories, blocks, inodes] = words;
    let superblock = Superblock {
        memory,
        memories,
        blocks,
        inodes,
    };
    if words == words_of(&superblock) {
        Some(superblock)
    } else {
        None
    }
}

// The words with which the page begins.
#[tactic(auto, unfolding(crate::specs::Superblocks::superblock_words))]
fn words_of(s: &Superblock) -> [u32; HEADER_WORDS]
    ensures { result ≡ superblock_words s.now }
{
    [MARK, VERSION, s.memory, s.memories, s.blocks, s.inodes]
}
