ghost use Rattle.std.specs.Prelude.{◌≡◌, ◌*◌, ◌<◌, ◌≤◌, ◌↔◌, ℕ, false, length, IsTrue, IfOk, IfErr, OnOk};
ghost use Rattle.fs_bitmap.specs.Bits.{is_used};
ghost use Rattle.fs_reader.specs.declared.tree_fault.TreeFault.TheVariants.{NoTree};
ghost use Rattle.fs_reader.specs.Numbers.{AreImages, AreMaps, IsNoTree, IsTreeRead};
ghost use Rattle.fs_reader.specs.Sizes.{AreSized};

use crate::numbers::read_number;
use crate::places::block_map;
use crate::tree_fault::TreeFault;
use fs_bitmap::{BITS_PER_BYTE, count_free};
use fs_layout::MAX_INODES;
use fs_rules::{Bytes, Files, Geometry, NoMemory, PlainTree};
use sfs_base::Table;
use std::alloc::Global;

/// Reads the tree that images show: what each record and its blocks hold. `NoTree` only where the images stand for no
/// tree of this cluster; where they stand for one, it is the one that is read.
pub fn read_tree(
    alloc: Global,
    geometry: &Geometry,
    parts: &[Bytes],
) -> Result<PlainTree, TreeFault>
    requires sized { AreSized geometry.now parts.now }
    requires images { AreImages geometry.now parts.now }
    ensures ok { IfOk result (λ t. IsTreeRead geometry.now parts.now t) }
    ensures none { IfErr result (λ fault. fault ≡ NoTree → IsNoTree geometry.now parts.now) }
{
    let mut left = maps_of(alloc, geometry, parts)?;
    let mut tree = PlainTree {
        geometry: *geometry,
        files: Files::new(alloc),
        freed: Table::new(alloc),
    };
    for before in 0..MAX_INODES * geometry.memories {
        read_number(alloc, geometry, parts, &mut left, &mut tree, before + 1)?;
    }
    if is_none_left(&left) {
        Ok(tree)
    } else {
        Err(TreeFault::NoTree)
    }
}

// The maps of the blocks of all images, one behind the other.
fn maps_of(alloc: Global, geometry: &Geometry, parts: &[Bytes]) -> Result<Vec<u8>, NoMemory>
    requires sized { AreSized geometry.now parts.now }
    ensures sized { IfOk result (λ maps. length maps.items ≡ 2048 * geometry.now.memories) }
    ensures ok { IfOk result (λ maps. AreMaps geometry.now parts.now maps.items) }
{
    let mut maps = Vec::new(alloc);
    for part in parts {
        maps.extend_from_slice(block_map(part))?;
    }
    Ok(maps)
}

// Whether no mark is left.
fn is_none_left(left: &[u8]) -> bool
    requires { length left.now ≤ 16384 }
    ensures { IsTrue result ↔ ((bit : ℕ) → bit < 8 * length left.now → is_used left.now bit ≡ false) }
{
    let bits = BITS_PER_BYTE * left.len() as u32;
    count_free(left, bits) == bits
}
