ghost use Rattle.std.specs.Prelude.{◌≡◌, ◌↔◌, IsTrue, IfSome, length};
ghost use Rattle.fs_chain.specs.declared.chain_block.ChainBlock.{ChainBlock};
ghost use Rattle.fs_chain.specs.declared.chain_block.Header.{Header};
ghost use Rattle.fs_chain.specs.Chains.{IsChain, SpellsChain, header_words};
ghost use Rattle.fs_layout.specs.References.{IsReference};
ghost use Rattle.fs_layout.specs.Words.{AreWords, spelled};

use crate::references::References;
use fs_layout::{BLOCK_BYTES, Reference, WORD_BYTES, read_words, write_words};

/// The words before the references.
const HEADER_WORDS: usize = 4;

/// The bytes before the references.
const HEADER_BYTES: usize = WORD_BYTES * HEADER_WORDS;

/// A block of the list of blocks that refer to a file's blocks.
#[derive(Clone, Debug, PartialEq, Eq, Drop)]
pub struct ChainBlock {
    /// The chaining block behind it.
    pub next: Option<Reference>,
    /// The number of the file.
    pub file: u32,
    /// Its index in the list, from 0.
    pub index: u32,
    /// The blocks of the file, in order; none where a block is not stored.
    pub references: References,
}

impl ChainBlock {
    /// Whether it can be written: the number of the block of the next one is below 2^32 - 1. Its references
    /// always can.
    pub fn is_chain(&self) -> bool
        ensures { IsTrue result ↔ IsChain self.now }
    {
        Reference::has_words(self.next)
    }
}

/// The chaining block that bytes spell (`docs/FORMATS.md`, "Images"). None exactly where they are no
/// such block.
pub fn read_chain(bytes: &[u8]) -> Option<ChainBlock>
    ensures found { IfSome result (λ c. SpellsChain c bytes.now) }
    ensures only { (c : ChainBlock) → SpellsChain c bytes.now → result ≡ Some c }
{
    if bytes.len() != BLOCK_BYTES {
        return None;
    }
    let (header, rest) = bytes.split_at(HEADER_BYTES);
    let Header { next, file, index } = read_header(header)?;
    Some(ChainBlock {
        next,
        file,
        index,
        references: References::read(rest)?,
    })
}

/// Writes a chaining block that can be written ([`ChainBlock::is_chain`]) into a block of
/// [`BLOCK_BYTES`] bytes.
pub fn write_chain(c: &ChainBlock, into: &mut [u8])
    requires fits { IsChain c.now }
    requires room { length into.old ≡ 4096 }
    ensures { SpellsChain c.now into.new }
{
    let (header, rest) = into.split_at_mut(HEADER_BYTES);
    write_words(&header_of(c.next, c.file, c.index), header);
    c.references.write(rest);
}

// What stands before the references.
struct Header {
    next: Option<Reference>,
    file: u32,
    index: u32,
}

// The header that bytes spell.
fn read_header(bytes: &[u8]) -> Option<Header>
    ensures found { IfSome result (λ h. AreWords (header_words h.next h.file h.index) × (bytes.now ≡ spelled (header_words h.next h.file h.index))) }
    ensures only { (h : Header) → AreWords (header_words h.next h.file h.index) → bytes.now ≡ spelled (header_words h.next h.file h.index) → result ≡ Some h }
{
    let words: [u32; HEADER_WORDS] = read_words(bytes)?;
    let [next_memory, next_place, file, index] = words;
    Some(Header {
        next: Reference::from_words(next_memory, next_place).ok()?,
        file,
        index,
    })
}

// The words of a header.
fn header_of(next: Option<Reference>, file: u32, index: u32) -> [u32; HEADER_WORDS]
    requires { IsReference next }
    ensures { result ≡ header_words next file index }
{
    let [next_memory, next_place] = Reference::to_words(next);
    [next_memory, next_place, file, index]
}
