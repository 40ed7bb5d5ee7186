ghost use Rattle.std.specs.Prelude.{◌≡◌, ◌≢◌, ◌*◌, ◌<◌, ◌≤◌, ◌↔◌, length, IsTrue, IfSome, IfErr, OnErr, OnOk};
ghost use Rattle.fs_bitmap.specs.Bits.{is_used};
ghost use Rattle.fs_layout.specs.declared.attrs.Attrs.{Attrs};
ghost use Rattle.fs_layout.specs.Inodes.{IsInode};
ghost use Rattle.fs_layout.specs.Places.{number_of};
ghost use Rattle.fs_reader.specs.declared.tree_fault.TreeFault.TheVariants.{NoTree};
ghost use Rattle.fs_reader.specs.Files.{IsNoFile};
ghost use Rattle.fs_reader.specs.Numbers.{IsFreeRead, IsLiveRead, IsNoneBelow, IsRecordAt, ReadsNumber, is_taken};
ghost use Rattle.fs_reader.specs.Sizes.{AreSized};

use crate::file::read_file;
use crate::marks::is_marked;
use crate::places::{inode_map, record_bytes};
use crate::tree_fault::TreeFault;
use fs_layout::{Attrs, MAX_INODES, read_inode};
use fs_rules::{Bytes, Geometry, Kept, NoMemory, PlainTree};
use std::alloc::Global;

// Reads what is there of one number: its file, if the number is live, or what it keeps. `NoTree` only where the images
// stand for no tree.
pub(crate) fn read_number(
    alloc: Global,
    geometry: &Geometry,
    parts: &[Bytes],
    left: &mut [u8],
    tree: &mut PlainTree,
    number: u32,
) -> Result<(), TreeFault>
    requires images { AreSized geometry.now parts.now }
    requires left { length left.old ≡ 2048 * geometry.now.memories }
    requires first { 1 ≤ number }
    requires last { number ≤ 16384 * geometry.now.memories }
    ensures sized { length left.new ≡ 2048 * geometry.now.memories }
    ensures ok { OnOk result (ReadsNumber geometry.now parts.now number left.old tree.old left.new tree.new) }
    ensures none { IfErr result (λ fault. fault ≡ NoTree
        → IsNoneBelow geometry.now parts.now number left.old tree.old) }
{
    let memory = (number - 1) / MAX_INODES;
    let inode = (number - 1) % MAX_INODES;
    if inode < geometry.inodes {
        read_one(alloc, geometry, parts, left, tree, memory, inode)
    } else {
        Ok(())
    }
}

// Reads what is there of the number of an inode.
fn read_one(
    alloc: Global,
    geometry: &Geometry,
    parts: &[Bytes],
    left: &mut [u8],
    tree: &mut PlainTree,
    memory: u32,
    inode: u32,
) -> Result<(), TreeFault>
    requires images { AreSized geometry.now parts.now }
    requires left { length left.old ≡ 2048 * geometry.now.memories }
    requires memory { memory < geometry.now.memories }
    requires inode { inode < geometry.now.inodes }
    ensures sized { length left.new ≡ 2048 * geometry.now.memories }
    ensures ok { OnOk result (ReadsNumber geometry.now parts.now
        (number_of memory inode) left.old tree.old left.new tree.new) }
    ensures none { IfErr result (λ fault. fault ≡ NoTree
        → IsNoneBelow geometry.now parts.now (number_of memory inode) left.old tree.old) }
{
    let attrs = record_of(geometry, parts, memory, inode).ok_or(TreeFault::NoTree)?;
    let number = MAX_INODES * memory + inode + 1;
    if attrs.kind != Attrs::FREE {
        read_live(alloc, geometry, parts, left, tree, number, &attrs)
    } else {
        keep(tree, number, &attrs)?;
        Ok(())
    }
}

// The record of an inode. None exactly where its bytes are no record, or its bit is not that of one.
fn record_of(geometry: &Geometry, parts: &[Bytes], memory: u32, inode: u32) -> Option<Attrs>
    requires images { AreSized geometry.now parts.now }
    requires memory { memory < geometry.now.memories }
    requires inode { inode < geometry.now.inodes }
    ensures found { IfSome result (λ a. IsRecordAt parts.now memory inode a) }
    ensures only { (a : Attrs) → IsRecordAt parts.now memory inode a → result ≡ Some a }
{
    let attrs = read_inode(record_bytes(geometry, parts, memory, inode))?;
    if has_bit(inode_map(geometry, parts, memory), inode, &attrs) {
        Some(attrs)
    } else {
        None
    }
}

// Whether the bit of an inode is that of its record.
fn has_bit(map: &[u8], inode: u32, attrs: &Attrs) -> bool
    requires { inode < 8 * length map.now }
    ensures { IsTrue result ↔ (is_used map.now inode ≡ is_taken attrs.now) }
{
    is_marked(map, inode) == has_number(attrs)
}

// Whether no file can get the number of this record.
fn has_number(attrs: &Attrs) -> bool
    ensures { result ≡ is_taken attrs.now }
{
    !(attrs.kind == Attrs::FREE && attrs.generation < u32::MAX && attrs.change < u64::MAX)
}

// Reads the file of a live number into the tree.
fn read_live(
    alloc: Global,
    geometry: &Geometry,
    parts: &[Bytes],
    left: &mut [u8],
    tree: &mut PlainTree,
    number: u32,
    attrs: &Attrs,
) -> Result<(), TreeFault>
    requires images { AreSized geometry.now parts.now }
    requires left { length left.old ≡ 2048 * geometry.now.memories }
    requires fields { IsInode attrs.now }
    requires live { attrs.now.kind ≢ 0 }
    ensures sized { length left.new ≡ 2048 * geometry.now.memories }
    ensures ok { OnOk result (IsLiveRead geometry.now parts.now number attrs.now left.old tree.old left.new tree.new) }
    ensures none { IfErr result (λ fault. fault ≡ NoTree → IsNoFile geometry.now parts.now number attrs.now left.old) }
{
    let file = read_file(alloc, geometry, parts, left, number, attrs)?;
    tree.files.insert(number, file)?;
    Ok(())
}

// Notes what a free number keeps: one that was never used keeps nothing.
fn keep(tree: &mut PlainTree, number: u32, attrs: &Attrs) -> Result<(), NoMemory>
    ensures { OnOk result (IsFreeRead number attrs.now tree.old tree.new) }
{
    if attrs.generation != 0 || attrs.change != 0 {
        tree.freed.insert(
            number,
            Kept {
                generation: attrs.generation,
                change: attrs.change,
            },
        )?;
    }
    Ok(())
}
