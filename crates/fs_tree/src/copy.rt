//! Copies of trees.
ghost use Rattle.std.specs.Prelude.{◌≡◌, IfOk};

use fs_rules::{Blocks, Content, Entry, File, Files, Kept, NoMemory, PlainTree, Slots};
use sfs_base::Table;
use std::alloc::Global;

/// A copy of a tree. [`NoMemory`]: there is no memory for it.
pub(crate) fn copy_tree(alloc: Global, tree: &PlainTree) -> Result<PlainTree, NoMemory>
    ensures { IfOk result (λ copy. copy ≡ tree.now) }
{
    Ok(PlainTree {
        geometry: tree.geometry,
        files: copy_files(alloc, &tree.files)?,
        freed: copy_freed(alloc, &tree.freed)?,
    })
}

// All files.
#[tactic(auto, using(crate::proofs::CopyLemmas::all_added))]
fn copy_files(alloc: Global, files: &Files) -> Result<Files, NoMemory>
    ensures { IfOk result (λ copy. copy ≡ files.now) }
{
    let mut copy = Files::new(alloc);
    for (number, file) in files.iter() {
        copy.insert(*number, copy_file(alloc, file)?)?;
    }
    Ok(copy)
}

// What free numbers keep.
#[tactic(auto, using(crate::proofs::CopyLemmas::all_added))]
fn copy_freed(alloc: Global, freed: &Table<Kept>) -> Result<Table<Kept>, NoMemory>
    ensures { IfOk result (λ copy. copy ≡ freed.now) }
{
    let mut copy = Table::new(alloc);
    for (number, kept) in freed.iter() {
        copy.insert(*number, *kept)?;
    }
    Ok(copy)
}

fn copy_file(alloc: Global, file: &File) -> Result<File, NoMemory>
    ensures { IfOk result (λ copy. copy ≡ file.now) }
{
    Ok(File {
        content: copy_content(alloc, &file.content)?,
        mode: file.mode,
        links: file.links,
        uid: file.uid,
        gid: file.gid,
        size: file.size,
        generation: file.generation,
        change: file.change,
        atime: file.atime,
        mtime: file.mtime,
        ctime: file.ctime,
    })
}

fn copy_content(alloc: Global, content: &Content) -> Result<Content, NoMemory>
    ensures { IfOk result (λ copy. copy ≡ content.now) }
{
    match content {
        Content::Regular(blocks) => Ok(Content::Regular(copy_blocks(alloc, blocks)?)),
        Content::Link(blocks) => Ok(Content::Link(copy_blocks(alloc, blocks)?)),
        Content::Directory { slots, parent } => Ok(Content::Directory {
            slots: copy_slots(alloc, slots)?,
            parent: *parent,
        }),
    }
}

// The stored blocks of a file.
#[tactic(auto, using(crate::proofs::CopyLemmas::all_added))]
fn copy_blocks(alloc: Global, blocks: &Blocks) -> Result<Blocks, NoMemory>
    ensures { IfOk result (λ copy. copy ≡ blocks.now) }
{
    let mut copy = Blocks::new(alloc);
    for (index, block) in blocks.iter() {
        copy.insert(*index, block.clone()?)?;
    }
    Ok(copy)
}

// The slots of a directory.
fn copy_slots(alloc: Global, slots: &Slots) -> Result<Slots, NoMemory>
    ensures { IfOk result (λ copy. copy ≡ slots.now) }
{
    let mut copy = Slots::new(alloc);
    for slot in slots.as_slice() {
        copy.push(copy_slot(slot)?)?;
    }
    Ok(copy)
}

fn copy_slot(slot: &Option<Entry>) -> Result<Option<Entry>, NoMemory>
    ensures { IfOk result (λ copy. copy ≡ slot.now) }
{
    match slot {
        Some(entry) => Ok(Some(Entry {
            name: entry.name.clone()?,
            file: entry.file,
        })),
        None => Ok(None),
    }
}
