ghost use Rattle.std.specs.Prelude.{◌≡◌, ◌+◌, ◌*◌, ◌<◌, ◌≤◌, ℕ, ◌↔◌, IsTrue, IfSome, IsSome, Some, None, is_some, nat_lt, length, slice_get, get_or};
ghost use Rattle.fs_layout.specs.declared.reference.Reference.{Reference};
ghost use Rattle.fs_image.specs.Stands.{IsBlock};
ghost use Rattle.plan_rules.specs.Fits.{IsFitChain, IsFitReference};
ghost use Rattle.plan_rules.specs.Told.{dir_blocks};

use crate::fit::{is_inside, is_listed};
use crate::lookup::dir_blocks;
use fs_chain::{ChainBlock, References};
use fs_layout::{Attrs, REFERENCES_PER_CHAIN, Reference};
use fs_rules::Geometry;

/// Whether a chaining block is fit to be held as the one with this index of the file with this number and record
/// (`docs/FORMATS.md`, "What a call wants").
pub fn is_fit_chain(
    geometry: &Geometry,
    attrs: &Attrs,
    number: u32,
    index: u32,
    chain: &ChainBlock,
) -> bool
    requires few { index < 8 }
    requires sized { length chain.now.references ≡ 510 }
    ensures { IsTrue result ↔ IsFitChain geometry.now attrs.now number index chain.now }
{
    (chain.file == number && chain.index == index)
        && (is_listed(geometry, chain.next, index + 1 < attrs.chains)
            && are_fit(
                geometry,
                &chain.references,
                REFERENCES_PER_CHAIN as u32 * index,
                dir_blocks(attrs),
            ))
}

// Whether references, of which the first is the one with this index in the file, are to blocks of this cluster, and those
// below a number of blocks are there.
fn are_fit(geometry: &Geometry, references: &References, first: u32, blocks: u32) -> bool
    requires few { first < 4080 }
    ensures { IsTrue result ↔ ((j : ℕ) → j < 510 → IsFitReference geometry.now (get_or references.now j None) (nat_lt (first + j) blocks)) }
{
    for nth in 0..REFERENCES_PER_CHAIN {
        if !is_fit(geometry, references.get(nth), first + (nth as u32) < blocks) {
            return false;
        }
    }
    true
}

// Whether a reference is to a block of this cluster, and is there where it is due.
fn is_fit(geometry: &Geometry, reference: Option<Reference>, is_due: bool) -> bool
    ensures { IsTrue result ↔ IsFitReference geometry.now reference is_due }
{
    is_inside(geometry, reference) && (reference.is_some() || !is_due)
}
