ghost use Rattle.std.specs.Prelude.{◌≡◌, ◌++◌, ◌∷◌, ◌≤◌, ◌-◌, replicate, IfOk, OnOk};
ghost use Rattle.fs_layout.specs.Inodes.{inode_words};
ghost use Rattle.fs_layout.specs.Words.{spelled};
ghost use Rattle.mini_tx.specs.FreshImages.{first_page, fresh_image, root as root_fields};
ghost use Rattle.mem_rules.specs.Fit.{IsSetup};

use crate::half::image_bytes;
use fs_layout::{Attrs, BLOCK_BYTES, INODE_BYTES, Superblock, write_inode, write_superblock};
use mem_rules::Setup;
use mini_tx::NoMemory;
use std::alloc::Global;

/// The bytes of a bitmap.
const BITMAP_BYTES: usize = BLOCK_BYTES / 2;

/// The first byte of the inode bitmap of memory node 0: the root's inode is used.
const ROOT_USED: u8 = 0x80;

/// The bytes up to the end of the root's record.
const ROOT_END: usize = 2 * BLOCK_BYTES + INODE_BYTES;

/// The image of this memory node in a cluster that was just formatted.
pub fn fresh(alloc: Global, setup: Setup) -> Result<Vec<u8>, NoMemory>
    requires { IsSetup setup }
    ensures { IfOk result (λ image. image.items ≡ fresh_image setup.geometry setup.index) }
{
    if setup.index == 0 {
        fresh_first(alloc, setup)
    } else {
        fresh_other(alloc, setup)
    }
}

/// That of memory node 0, which has the root.
fn fresh_first(alloc: Global, setup: Setup) -> Result<Vec<u8>, NoMemory>
    requires setup { IsSetup setup }
    requires first { setup.index ≡ 0 }
    ensures { IfOk result (λ image. image.items ≡ fresh_image setup.geometry setup.index) }
{
    let mut image = superblock_page(alloc, setup)?;
    push_zeros(alloc, &mut image, BITMAP_BYTES)?;
    image.push(ROOT_USED)?;
    push_zeros(alloc, &mut image, BITMAP_BYTES - 1)?;
    image.extend_from_slice(&root_record())?;
    push_zeros(alloc, &mut image, image_bytes(setup) as usize - ROOT_END)?;
    Ok(image)
}

/// That of any other memory node.
fn fresh_other(alloc: Global, setup: Setup) -> Result<Vec<u8>, NoMemory>
    requires setup { IsSetup setup }
    requires other { 1 ≤ setup.index }
    ensures { IfOk result (λ image. image.items ≡ fresh_image setup.geometry setup.index) }
{
    let mut image = superblock_page(alloc, setup)?;
    push_zeros(alloc, &mut image, image_bytes(setup) as usize - BLOCK_BYTES)?;
    Ok(image)
}

/// The first page of an image.
#[tactic(auto, unfolding(mini_tx::specs::FreshImages::first_page))]
fn superblock_page(alloc: Global, setup: Setup) -> Result<Vec<u8>, NoMemory>
    ensures { IfOk result (λ page. page.items ≡ first_page setup.geometry setup.index) }
{
    let mut page = vec![in alloc; 0; BLOCK_BYTES]?;
    let superblock = Superblock {
        memory: setup.index,
        memories: setup.geometry.memories,
        blocks: setup.geometry.blocks,
        inodes: setup.geometry.inodes,
    };
    write_superblock(&superblock, &mut page);
    Ok(page)
}

/// The record of the root: a directory of mode 0777 with nothing in it, which is its own parent.
fn root_record() -> [u8; INODE_BYTES]
    ensures { result ≡ spelled (inode_words root_fields) }
{
    write_inode(&Attrs {
        kind: Attrs::DIRECTORY,
        mode: 0o777,
        links: 2,
        uid: 0,
        gid: 0,
        size: 0,
        generation: 1,
        used: 0,
        change: 1,
        atime_sec: 0,
        atime_usec: 0,
        mtime_sec: 0,
        mtime_usec: 0,
        ctime_sec: 0,
        ctime_usec: 0,
        first: None,
        chains: 0,
        parent: 1,
        names: 0,
    })
}

/// Adds zeros behind bytes.
fn push_zeros(alloc: Global, bytes: &mut Vec<u8>, n: usize) -> Result<(), NoMemory>
    ensures { OnOk result (bytes.new.items ≡ bytes.old.items ++ replicate n 0) }
{
    let zeros = vec![in alloc; 0; n]?;
    bytes.extend_from_slice(&zeros)?;
    Ok(())
}
