ghost use Rattle.std.specs.Prelude.{◌≡◌, ◌+◌, ◌↔◌, ◌≤◌, ℕ, Some, length, IsSome, IsTrue};
ghost use Rattle.std.specs.FinMap as table;
ghost use Rattle.fs_rules.specs.declared.entry.Entry.{Entry};
ghost use Rattle.fs_rules.specs.File.{slots_of};
ghost use Rattle.fs_rules.specs.Geometry.{IsWithinLimits};
ghost use Rattle.fs_rules.specs.Good.{names_directory, parent_at, subdirectories};
ghost use Rattle.fs_rules.specs.Numbers.{IsNumber};
ghost use Rattle.fs_laws.proofs.WholeLemmas.{IsOwn};
ghost use Rattle.fs_good.specs.Places.{AreInPlace, AreUnder, HasLinksFor, IsInPlace, IsUnder};

use crate::own::is_own;
use crate::shape::parent_at;
use fs_rules::{Content, Entry, File, Geometry, MAX_INODES, PlainTree};
use std::alloc::Global;

/// The links of a directory without subdirectories.
const LINKS_OF_NONE: usize = 2;

// Whether each file is in place.
pub(crate) fn are_in_place(alloc: Global, tree: &PlainTree) -> bool
    requires { IsWithinLimits tree.now.geometry }
    ensures { IsTrue result ↔ AreInPlace tree.now }
{
    for (number, file) in tree.files.iter() {
        if !is_in_place(alloc, tree, *number, file) {
            return false;
        }
    }
    true
}

// Whether the file with this number is in place.
fn is_in_place(alloc: Global, tree: &PlainTree, number: u32, file: &File) -> bool
    requires { IsWithinLimits tree.now.geometry }
    ensures { IsTrue result ↔ IsInPlace tree.now number file.now }
{
    is_number(&tree.geometry, number) && is_in_order(alloc, tree, number, file)
}

// Whether the file with this number is in place, but for its number.
fn is_in_order(alloc: Global, tree: &PlainTree, number: u32, file: &File) -> bool
    ensures { IsTrue result ↔ ((HasLinksFor tree.now file.now.links file.now.content
        × AreUnder tree.now number (slots_of file.now.content)) × IsOwn file.now) }
{
    fits_tree(tree, number, &file.content, file.links) && is_own(alloc, file)
}

// Whether it is a number of this cluster.
pub(crate) fn is_number(geometry: &Geometry, number: u32) -> bool
    requires { IsWithinLimits geometry.now }
    ensures { IsTrue result ↔ IsNumber geometry.now number }
{
    number >= 1
        && (number - 1) / MAX_INODES < geometry.memories
        && (number - 1) % MAX_INODES < geometry.inodes
}

// Whether each name of a directory names a live file, each directory that it names has it as its parent, and its links
// tell how many these are.
fn fits_tree(tree: &PlainTree, number: u32, content: &Content, links: u32) -> bool
    ensures { IsTrue result ↔ (HasLinksFor tree.now links content.now
        × AreUnder tree.now number (slots_of content.now)) }
{
    match content {
        Content::Directory { slots, .. } => fits_slots(tree, number, slots.as_slice(), links),
        _ => true,
    }
}

// The same of the slots of a directory.
fn fits_slots(tree: &PlainTree, number: u32, slots: &[Option<Entry>], links: u32) -> bool
    ensures { IsTrue result ↔ ((links ≡ 2 + subdirectories tree.now slots.now) × AreUnder tree.now number slots.now) }
{
    are_under(tree, number, slots) && has_links(tree, slots, links)
}

// Whether a directory with these slots has this many links.
fn has_links(tree: &PlainTree, slots: &[Option<Entry>], links: u32) -> bool
    ensures { IsTrue result ↔ (links ≡ 2 + subdirectories tree.now slots.now) }
{
    links as usize == LINKS_OF_NONE + directories_in(tree, slots)
}

// Whether each of these slots names a live file, which has this parent where it is a directory.
fn are_under(tree: &PlainTree, number: u32, slots: &[Option<Entry>]) -> bool
    ensures { IsTrue result ↔ AreUnder tree.now number slots.now }
{
    for slot in slots {
        if !is_under(tree, number, slot) {
            return false;
        }
    }
    true
}

// Whether a slot is empty or names a live file, which has this parent where it is a directory.
fn is_under(tree: &PlainTree, number: u32, slot: &Option<Entry>) -> bool
    ensures { IsTrue result ↔ ((e : Entry) → slot.now ≡ Some e → IsUnder tree.now number e) }
{
    match slot {
        Some(entry) => lies_under(tree, number, entry.file),
        None => true,
    }
}

// Whether a file is live, and has this parent where it is a directory.
fn lies_under(tree: &PlainTree, number: u32, file: u32) -> bool
    ensures { IsTrue result ↔ (IsSome (table.get tree.now.files file)
        × ((p : ℕ) → parent_at tree.now file ≡ Some p → p ≡ number)) }
{
    tree.files.get(file).is_some() && parent_at(tree, file).unwrap_or(number) == number
}

// How many of these slots name a directory.
fn directories_in(tree: &PlainTree, slots: &[Option<Entry>]) -> usize
    ensures exact { result ≡ subdirectories tree.now slots.now }
    ensures few { result ≤ length slots.now }
{
    let mut count = 0;
    for slot in slots {
        if names_directory(tree, slot) {
            count += 1;
        }
    }
    count
}

// Whether a slot names a directory.
fn names_directory(tree: &PlainTree, slot: &Option<Entry>) -> bool
    ensures { result ≡ names_directory tree.now slot.now }
{
    match slot {
        Some(entry) => parent_at(tree, entry.file).is_some(),
        None => false,
    }
}
