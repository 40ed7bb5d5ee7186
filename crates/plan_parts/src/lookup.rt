ghost use Rattle.std.specs.Prelude.{◌≡◌, ◌==◌, nat_eq, find, option_map};
ghost use Rattle.std.specs.Option.{option_copied};
ghost use Rattle.node_cache.specs.Cached.{held_of};
ghost use Rattle.plan_rules.specs.Told.{chain_of, dir_blocks};

use fs_chain::ChainBlock;
use fs_layout::{Attrs, BLOCK_BYTES};
use node_cache::{Entry, Held, HeldChain};

/// What is held of the file with this number. It takes no memory, as all of these calls.
pub fn entry_of(held: &Held, number: u32) -> Option<&Entry>
    ensures { option_copied result ≡ held_of number held.now.entries }
{
    held.entries
        .as_slice()
        .iter()
        .find(|entry| is_of(entry, number))
}

// Whether an entry is that of the file with this number.
pub(crate) fn is_of(entry: &Entry, number: u32) -> bool
    ensures { result ≡ nat_eq number entry.now.number }
{
    number == entry.number
}

/// The record of the file with this number, where one is held.
pub fn record_of(held: &Held, number: u32) -> Option<&Attrs>
    ensures { option_copied result ≡ option_map (λ e. e.attrs) (held_of number held.now.entries) }
{
    match entry_of(held, number) {
        Some(entry) => Some(&entry.attrs),
        None => None,
    }
}

/// How many blocks the record of a directory tells; that of another file tells none.
pub fn dir_blocks(attrs: &Attrs) -> u32
    ensures { result ≡ dir_blocks attrs.now }
{
    if attrs.kind == Attrs::DIRECTORY {
        attrs.size / BLOCK_BYTES as u32
    } else {
        0
    }
}

/// The chaining block of the file with this number that has this index in its list, where it is held.
pub fn chain_of(held: &Held, number: u32, index: u32) -> Option<&ChainBlock>
    ensures { option_copied result ≡ chain_of held.now number index }
{
    match entry_of(held, number) {
        Some(entry) => chain_in(entry, index),
        None => None,
    }
}

// The chaining block of an entry that has this index.
fn chain_in(entry: &Entry, index: u32) -> Option<&ChainBlock>
    ensures { option_copied result ≡ option_map (λ c. c.chain) (find (λ c. c.index == index) entry.now.chains) }
{
    match first_with(entry.chains.as_slice(), index) {
        Some(held) => Some(&held.chain),
        None => None,
    }
}

// The first one with this index.
fn first_with(chains: &[HeldChain], index: u32) -> Option<&HeldChain>
    ensures { option_copied result ≡ find (λ c. c.index == index) chains.now }
{
    chains.iter().find(|chain| is_at(chain, index))
}

// Whether a chaining block has this index.
fn is_at(chain: &HeldChain, index: u32) -> bool
    ensures { result ≡ (chain.now.index == index) }
{
    chain.index == index
}
