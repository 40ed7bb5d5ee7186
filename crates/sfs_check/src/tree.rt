ghost use Rattle.std.specs.Prelude.{◌≡◌, length, IfOk, IfErr};
ghost use Rattle.fs_image.specs.Stands.{Stands};
ghost use Rattle.fs_reader.specs.declared.tree_fault.TreeFault.TheVariants.{NoTree};
ghost use Rattle.fs_reader.specs.Numbers.{AreImages, IsNoTree};
ghost use Rattle.fs_reader.specs.Sizes.{AreSized};
ghost use Rattle.fs_rules.specs.Geometry.{IsWithinLimits};
ghost use Rattle.sfs_check.specs.Geometries.{geometry_of};

use crate::images::are_images;
use fs_good::is_good;
use fs_reader::{TreeFault, read_tree};
use fs_rules::{Bytes, Geometry, PlainTree};
use mini_tx::{Geometry4, Images};
use std::alloc::Global;

/// The tree that the images of a cluster stand for (docs/FORMATS.md, "What images stand for"). The geometry is within
/// its limits and has the numbers of the images, and as many memory nodes as there are images.
///
/// # Errors
///
/// [`TreeFault::NoTree`] exactly where they stand for none, and [`TreeFault::NoMemory`].
pub fn tree_of(alloc: Global, geometry: Geometry4, images: &Images) -> Result<PlainTree, TreeFault>
    requires limits { IsWithinLimits (geometry_of geometry) }
    requires memories { length images.now.parts ≡ geometry.memories }
    requires blocks { images.now.blocks ≡ geometry.blocks }
    requires inodes { images.now.inodes ≡ geometry.inodes }
    ensures geometry { IfOk result (λ t. t.geometry ≡ geometry_of geometry) }
    ensures stands { IfOk result (λ t. Stands images.now.parts t) }
    ensures none { IfErr result (λ fault. fault ≡ NoTree → IsNoTree (geometry_of geometry) images.now.parts) }
{
    let geometry = Geometry {
        nodes: geometry.nodes,
        memories: geometry.memories,
        blocks: geometry.blocks,
        inodes: geometry.inodes,
    };
    tree_in(alloc, &geometry, images.parts.as_slice())
}

// The tree that images stand for.
fn tree_in(alloc: Global, geometry: &Geometry, parts: &[Bytes]) -> Result<PlainTree, TreeFault>
    requires limits { IsWithinLimits geometry.now }
    requires memories { length parts.now ≡ geometry.now.memories }
    ensures geometry { IfOk result (λ t. t.geometry ≡ geometry.now) }
    ensures stands { IfOk result (λ t. Stands parts.now t) }
    ensures none { IfErr result (λ fault. fault ≡ NoTree → IsNoTree geometry.now parts.now) }
{
    if are_images(geometry, parts) {
        good_tree(alloc, geometry, parts)
    } else {
        Err(TreeFault::NoTree)
    }
}

// The tree that images show, if it is a file system.
fn good_tree(alloc: Global, geometry: &Geometry, parts: &[Bytes]) -> Result<PlainTree, TreeFault>
    requires sized { AreSized geometry.now parts.now }
    requires images { AreImages geometry.now parts.now }
    ensures geometry { IfOk result (λ t. t.geometry ≡ geometry.now) }
    ensures stands { IfOk result (λ t. Stands parts.now t) }
    ensures none { IfErr result (λ fault. fault ≡ NoTree → IsNoTree geometry.now parts.now) }
{
    let tree = read_tree(alloc, geometry, parts)?;
    let good = is_good(alloc, &tree)?;
    if good {
        Ok(tree)
    } else {
        Err(TreeFault::NoTree)
    }
}
