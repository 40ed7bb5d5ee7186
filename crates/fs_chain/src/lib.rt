//! Chaining blocks: the references of a file to its blocks.
//!
//! A file's blocks are referred to by a list of chaining blocks. Each names the next one, the file and its
//! own index in the list, so that a stray block is told, and has [`REFERENCES_PER_CHAIN`] references
//! ([`References`]). `specs/Chains.antt` has its words in order; [`read_chain`] and [`write_chain`] are the
//! inverse of each other. No call takes memory.
#![tactic(auto)]

mod chain_block;
mod laws;
mod references;
mod spelling;

pub use chain_block::{ChainBlock, read_chain, write_chain};
pub use fs_layout::{BLOCK_BYTES, REFERENCES_PER_CHAIN, Reference};
pub use laws::chains_have_one_value;
pub use references::References;
