ghost use Rattle.std.specs.Prelude.{◌≡◌, ◌+◌, ◌*◌, ◌<◌, length, OnOk, IfErr};
ghost use Rattle.fs_reader.specs.declared.tree_fault.TreeFault.TheVariants.{NoTree};
ghost use Rattle.fs_reader.specs.Contents.{CanBeRead, CanBlockBeRead, IsBlockRead, IsNoneClaimed, IsReferenceRead, ReadsTo, Refers};
ghost use Rattle.fs_reader.specs.Sizes.{AreSized};

use crate::contents::put;
use crate::marks::take;
use crate::places::block_of;
use crate::tree_fault::TreeFault;
use fs_chain::References;
use fs_layout::{REFERENCES_PER_CHAIN, Reference};
use fs_rules::{Bytes, Content, Geometry};
use std::alloc::Global;

/// The most chaining blocks of a file: a regular file has at most 4,080 blocks.
pub(crate) const MAX_CHAINS: u32 = 8;

// Reads the blocks to which the chaining block with this index refers, and adds them to what the file
// contains. `NoTree` only where no content is claimed that lies there.
pub(crate) fn read_blocks(
    alloc: Global,
    geometry: &Geometry,
    parts: &[Bytes],
    left: &mut [u8],
    content: &mut Content,
    references: &References,
    index: u32,
) -> Result<(), TreeFault>
    requires images { AreSized geometry.now parts.now }
    requires left { length left.old ≡ 2048 * geometry.now.memories }
    requires few { index < MAX_CHAINS }
    ensures sized { length left.new ≡ 2048 * geometry.now.memories }
    ensures ok { OnOk result (ReadsTo geometry.now parts.now (λ place. Refers place index references.now)
        (511 * index + 1) (511 * (index + 1)) left.old content.old left.new content.new) }
    ensures none { IfErr result (λ fault. fault ≡ NoTree
        → IsNoneClaimed geometry.now parts.now (λ place. Refers place index references.now)
        (511 * index + 1) left.old content.old) }
{
    let first = REFERENCES_PER_CHAIN * index as usize;
    for nth in 0..REFERENCES_PER_CHAIN {
        let reference = references.get(nth);
        read_reference(
            alloc,
            geometry,
            parts,
            left,
            content,
            reference,
            (first + nth) as u32,
        )?;
    }
    Ok(())
}

// Reads what the reference with this index refers to, if it is one.
fn read_reference(
    alloc: Global,
    geometry: &Geometry,
    parts: &[Bytes],
    left: &mut [u8],
    content: &mut Content,
    reference: Option<Reference>,
    index: u32,
) -> Result<(), TreeFault>
    requires images { AreSized geometry.now parts.now }
    requires left { length left.old ≡ 2048 * geometry.now.memories }
    requires few { index < 4080 }
    ensures sized { length left.new ≡ 2048 * geometry.now.memories }
    ensures ok { OnOk result (IsReferenceRead geometry.now parts.now reference index left.old content.old left.new
        content.new) }
    ensures none { IfErr result (λ fault. fault ≡ NoTree
        → CanBeRead geometry.now parts.now reference index left.old content.old → ⊥) }
{
    match reference {
        Some(at) => read_block(alloc, geometry, parts, left, content, at, index),
        None => Ok(()),
    }
}

// Reads the stored block with this index.
fn read_block(
    alloc: Global,
    geometry: &Geometry,
    parts: &[Bytes],
    left: &mut [u8],
    content: &mut Content,
    at: Reference,
    index: u32,
) -> Result<(), TreeFault>
    requires images { AreSized geometry.now parts.now }
    requires left { length left.old ≡ 2048 * geometry.now.memories }
    requires few { index < 4080 }
    ensures sized { length left.new ≡ 2048 * geometry.now.memories }
    ensures ok { OnOk result (IsBlockRead geometry.now parts.now at index left.old content.old left.new content.new) }
    ensures none { IfErr result (λ fault. fault ≡ NoTree
        → CanBlockBeRead geometry.now parts.now at index left.old content.old → ⊥) }
{
    take(geometry, left, at)?;
    put(alloc, content, index, block_of(geometry, parts, at))
}
