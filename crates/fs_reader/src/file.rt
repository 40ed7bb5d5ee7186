ghost use Rattle.std.specs.Prelude.{◌≡◌, ◌≢◌, ◌*◌, ◌↔◌, ◌≤◌, [], ◌∷◌, None, length, count_by, is_some, IfOk, IfErr, IsTrue};
ghost use Rattle.std.specs.FinMap as table;
ghost use Rattle.fs_image.specs.Parts.{chains_of, names_of};
ghost use Rattle.fs_layout.specs.Inodes.{IsInode};
ghost use Rattle.fs_rules.specs.File as file;
ghost use Rattle.fs_rules.specs.declared.content.Content.TheVariants.{Directory, Link, Regular};
ghost use Rattle.fs_reader.specs.declared.tree_fault.TreeFault.TheVariants.{NoTree};
ghost use Rattle.fs_reader.specs.Files.{IsContentRead, IsEmptyFor, IsFileRead, IsNoContent, IsNoFile, file_by};
ghost use Rattle.fs_reader.specs.Sizes.{AreSized};

use crate::blocks::MAX_CHAINS;
use crate::links::read_links;
use crate::tree_fault::TreeFault;
use fs_layout::{Attrs, Reference, SLOTS_PER_BLOCK};
use fs_rules::{Blocks, Bytes, Content, Entry, File, Geometry, Slots, Stamp, chains_up_to};
use std::alloc::Global;

/// Reads the file with this number, whose record has these fields, and takes the marks of its blocks.
/// `NoTree` exactly where no file has this record and these blocks.
pub fn read_file(
    alloc: Global,
    geometry: &Geometry,
    parts: &[Bytes],
    left: &mut [u8],
    number: u32,
    attrs: &Attrs,
) -> Result<File, TreeFault>
    requires images { AreSized geometry.now parts.now }
    requires left { length left.old ≡ 2048 * geometry.now.memories }
    requires fields { IsInode attrs.now }
    requires live { attrs.now.kind ≢ 0 }
    ensures sized { length left.new ≡ 2048 * geometry.now.memories }
    ensures ok { IfOk result (λ f. IsFileRead geometry.now parts.now number attrs.now left.old left.new f) }
    ensures none { IfErr result (λ fault. fault ≡ NoTree → IsNoFile geometry.now parts.now number attrs.now left.old) }
{
    let content = read_content(alloc, geometry, parts, left, number, attrs)?;
    if is_told(&content, attrs) {
        Ok(file_of(content, attrs))
    } else {
        Err(TreeFault::NoTree)
    }
}

// Reads what the file contains.
fn read_content(
    alloc: Global,
    geometry: &Geometry,
    parts: &[Bytes],
    left: &mut [u8],
    number: u32,
    attrs: &Attrs,
) -> Result<Content, TreeFault>
    requires images { AreSized geometry.now parts.now }
    requires left { length left.old ≡ 2048 * geometry.now.memories }
    requires fields { IsInode attrs.now }
    requires live { attrs.now.kind ≢ 0 }
    ensures sized { length left.new ≡ 2048 * geometry.now.memories }
    ensures ok { IfOk result (λ c. IsContentRead geometry.now parts.now number attrs.now left.old left.new c) }
    ensures none { IfErr result (λ fault. fault ≡ NoTree
        → IsNoContent geometry.now parts.now number attrs.now left.old) }
{
    if has_few(attrs) {
        read_all(alloc, geometry, parts, left, number, attrs)
    } else {
        Err(TreeFault::NoTree)
    }
}

// Reads what a file contains that has no more chaining blocks than a file may have.
fn read_all(
    alloc: Global,
    geometry: &Geometry,
    parts: &[Bytes],
    left: &mut [u8],
    number: u32,
    attrs: &Attrs,
) -> Result<Content, TreeFault>
    requires images { AreSized geometry.now parts.now }
    requires left { length left.old ≡ 2048 * geometry.now.memories }
    requires fields { IsInode attrs.now }
    requires live { attrs.now.kind ≢ 0 }
    requires few { attrs.now.chains ≤ MAX_CHAINS }
    ensures sized { length left.new ≡ 2048 * geometry.now.memories }
    ensures ok { IfOk result (λ c. IsContentRead geometry.now parts.now number attrs.now left.old left.new c) }
    ensures none { IfErr result (λ fault. fault ≡ NoTree
        → IsNoContent geometry.now parts.now number attrs.now left.old) }
{
    let mut content = empty_content(alloc, attrs);
    let behind = read_links(
        alloc,
        geometry,
        parts,
        left,
        &mut content,
        number,
        attrs.first,
        attrs.chains,
    )?;
    if is_all(behind, &content, attrs) {
        Ok(content)
    } else {
        Err(TreeFault::NoTree)
    }
}

// Whether a record tells no more chaining blocks than a file may have.
fn has_few(attrs: &Attrs) -> bool
    ensures { IsTrue result ↔ (attrs.now.chains ≤ MAX_CHAINS) }
{
    attrs.chains <= MAX_CHAINS
}

// Whether no chaining block lies behind the last one, and the content needs as many as the record tells.
fn is_all(behind: Option<Reference>, content: &Content, attrs: &Attrs) -> bool
    ensures { IsTrue result ↔ ((behind ≡ None) × (chains_of content.now ≡ attrs.now.chains)) }
{
    behind.is_none() && chains_in(content) == attrs.chains as usize
}

// What a file of this kind contains where no block was read.
fn empty_content(alloc: Global, attrs: &Attrs) -> Content
    requires fields { IsInode attrs.now }
    requires live { attrs.now.kind ≢ 0 }
    ensures { IsEmptyFor attrs.now result }
{
    if is_directory(attrs) {
        directory_of(alloc, attrs.parent)
    } else if is_link(attrs) {
        link_of(alloc)
    } else {
        regular_of(alloc)
    }
}

// Whether it is the record of a directory.
fn is_directory(attrs: &Attrs) -> bool
    ensures { IsTrue result ↔ (attrs.now.kind ≡ 2) }
{
    attrs.kind == Attrs::DIRECTORY
}

// Whether it is the record of a symbolic link.
fn is_link(attrs: &Attrs) -> bool
    ensures { IsTrue result ↔ (attrs.now.kind ≡ 5) }
{
    attrs.kind == Attrs::LINK
}

// A directory without slots.
fn directory_of(alloc: Global, parent: u32) -> Content
    ensures { result ≡ Directory [] parent }
{
    Content::Directory {
        slots: Slots::new(alloc),
        parent,
    }
}

// A link without blocks.
fn link_of(alloc: Global) -> Content
    ensures { result ≡ Link table.empty }
{
    Content::Link(Blocks::new(alloc))
}

// A regular file without blocks.
fn regular_of(alloc: Global) -> Content
    ensures { result ≡ Regular table.empty }
{
    Content::Regular(Blocks::new(alloc))
}

// Whether the record tells how many blocks such a file uses, and how many names it has.
fn is_told(content: &Content, attrs: &Attrs) -> bool
    ensures { IsTrue result ↔ ((file.used content.now ≡ attrs.now.used) × (names_of content.now ≡ attrs.now.names)) }
{
    content.used() == attrs.used as usize && names_in(content) == attrs.names as usize
}

// How many chaining blocks a file with this content has.
fn chains_in(content: &Content) -> usize
    ensures { result ≡ chains_of content.now }
{
    match content {
        Content::Regular(blocks) => chains_for(blocks),
        Content::Link(blocks) => chains_for(blocks),
        Content::Directory { slots, .. } => {
            let count = slots.len() / SLOTS_PER_BLOCK;
            chains_up_to(count.checked_sub(1))
        }
    }
}

// How many it takes to refer to these blocks.
fn chains_for(blocks: &Blocks) -> usize
    ensures { result ≡ file.chains_up_to (file.greatest blocks.now) }
{
    match blocks.last_key() {
        Some(index) => chains_up_to(Some(index as usize)),
        None => 0,
    }
}

// How many names a file has in use.
fn names_in(content: &Content) -> usize
    ensures { result ≡ names_of content.now }
{
    match content {
        Content::Directory { slots, .. } => entries_in(slots.as_slice()),
        _ => 0,
    }
}

// How many slots have an entry.
fn entries_in(slots: &[Option<Entry>]) -> usize
    ensures { result ≡ count_by is_some slots.now }
{
    let mut count = 0;
    for slot in slots {
        count += entries_of(slot);
    }
    count
}

// How many entries a slot has.
fn entries_of(slot: &Option<Entry>) -> usize
    ensures exact { result ≡ count_by is_some (slot.now ∷ []) }
    ensures small { result ≤ 1 }
{
    match slot {
        Some(_) => 1,
        None => 0,
    }
}

// The file with this content and the fields of a record.
fn file_of(content: Content, attrs: &Attrs) -> File
    ensures { result ≡ file_by content attrs.now }
{
    File {
        content,
        mode: attrs.mode,
        links: attrs.links,
        uid: attrs.uid,
        gid: attrs.gid,
        size: attrs.size,
        generation: attrs.generation,
        change: attrs.change,
        atime: Stamp {
            sec: attrs.atime_sec,
            usec: attrs.atime_usec,
        },
        mtime: Stamp {
            sec: attrs.mtime_sec,
            usec: attrs.mtime_usec,
        },
        ctime: Stamp {
            sec: attrs.ctime_sec,
            usec: attrs.ctime_usec,
        },
    }
}
