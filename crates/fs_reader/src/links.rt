ghost use Rattle.std.specs.Prelude.{◌≡◌, ◌*◌, ◌<◌, ◌≤◌, Option, length, IfOk, IfErr, IfSome, Some};
ghost use Rattle.fs_chain.specs.declared.chain_block.ChainBlock.{ChainBlock};
ghost use Rattle.fs_image.specs.Stands.{IsBlock};
ghost use Rattle.fs_reader.specs.declared.tree_fault.TreeFault.TheVariants.{NoTree};
ghost use Rattle.fs_reader.specs.Links.{IsLinkAt, IsLinkRead, IsNoChainClaimed, IsNoLinkClaimed, ReadsLinks};
ghost use Rattle.fs_reader.specs.Sizes.{AreSized};

use crate::blocks::{MAX_CHAINS, read_blocks};
use crate::marks::take;
use crate::places::block_of;
use crate::tree_fault::TreeFault;
use fs_chain::{ChainBlock, read_chain};
use fs_layout::Reference;
use fs_rules::{Bytes, Content, Geometry};
use std::alloc::Global;

// Reads so many chaining blocks of a file from the first one on, and all that they refer to; gives the place
// of the one behind them.
pub(crate) fn read_links(
    alloc: Global,
    geometry: &Geometry,
    parts: &[Bytes],
    left: &mut [u8],
    content: &mut Content,
    number: u32,
    first: Option<Reference>,
    chains: u32,
) -> Result<Option<Reference>, TreeFault>
    requires images { AreSized geometry.now parts.now }
    requires left { length left.old ≡ 2048 * geometry.now.memories }
    requires few { chains ≤ MAX_CHAINS }
    ensures sized { length left.new ≡ 2048 * geometry.now.memories }
    ensures ok { IfOk result (λ behind. ReadsLinks geometry.now parts.now number first chains left.old content.old
        left.new content.new behind) }
    ensures none { IfErr result (λ fault. fault ≡ NoTree
        → IsNoChainClaimed geometry.now parts.now number first chains left.old content.old) }
{
    let mut next = first;
    for index in 0..chains {
        next = read_link(alloc, geometry, parts, left, content, number, index, next)?;
    }
    Ok(next)
}

// Reads the chaining block with this index, if one lies there, and all that it refers to; gives the place of
// the next one.
fn read_link(
    alloc: Global,
    geometry: &Geometry,
    parts: &[Bytes],
    left: &mut [u8],
    content: &mut Content,
    number: u32,
    index: u32,
    from: Option<Reference>,
) -> Result<Option<Reference>, TreeFault>
    requires images { AreSized geometry.now parts.now }
    requires left { length left.old ≡ 2048 * geometry.now.memories }
    requires few { index < MAX_CHAINS }
    ensures sized { length left.new ≡ 2048 * geometry.now.memories }
    ensures ok { IfOk result (λ next. IsLinkRead geometry.now parts.now number index from left.old content.old
        left.new content.new next) }
    ensures none { IfErr result (λ fault. fault ≡ NoTree
        → IsNoLinkClaimed geometry.now parts.now number index from left.old content.old) }
{
    let at = from.ok_or(TreeFault::NoTree)?;
    take(geometry, left, at)?;
    let chain = link_at(geometry, parts, number, index, at).ok_or(TreeFault::NoTree)?;
    read_blocks(
        alloc,
        geometry,
        parts,
        left,
        content,
        &chain.references,
        index,
    )?;
    Ok(chain.next)
}

// The chaining block of a file with this index, which lies there. None exactly where none does.
fn link_at(
    geometry: &Geometry,
    parts: &[Bytes],
    number: u32,
    index: u32,
    at: Reference,
) -> Option<ChainBlock>
    requires images { AreSized geometry.now parts.now }
    requires inside { IsBlock geometry.now at }
    ensures found { IfSome result (λ c. IsLinkAt geometry.now parts.now number index at c) }
    ensures only { (c : ChainBlock) → IsLinkAt geometry.now parts.now number index at c → result ≡ Some c }
{
    let chain = read_chain(block_of(geometry, parts, at))?;
    if chain.file == number && chain.index == index {
        Some(chain)
    } else {
        None
    }
}
