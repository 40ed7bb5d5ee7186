ghost use Rattle.std.specs.Prelude.{◌≡◌, ◌<◌, ◌+◌, ◌*◌, ◌≤◌, find, map, None};
ghost use Rattle.fs_rules.specs.Lists.{below};
ghost use Rattle.fs_rules.specs.Numbers.{is_free, number_of, numbers_of, numbers_from};
ghost use Rattle.fs_rules.specs.Geometry.{IsWithinLimits};
ghost use Rattle.fs_decisions.specs.Given.{AreGiven, AllAreGiven};
ghost use Rattle.fs_decisions.specs.Limits.{is_number, is_pick};

use crate::given::GivenNumbers;
use fs_rules::{Geometry, MAX_INODES, PlainTree};

/// The lowest free number of a memory node, else of the next ones in a circle; `None` exactly where none is
/// free (`docs/FORMATS.md`, "The rules of the file system"). The numbers that were given are passed over but
/// for those that were freed.
pub fn first_free(tree: &PlainTree, given: &GivenNumbers, start: u32) -> Option<u32>
    requires limits { IsWithinLimits tree.now.geometry }
    requires start { start < tree.now.geometry.memories }
    requires given { AllAreGiven tree.now given.now.counts }
    ensures { result ≡ find (is_free tree.now) (numbers_from tree.now.geometry start) }
{
    for k in 0..tree.geometry.memories {
        let memory = (start + k) % tree.geometry.memories;
        if let Some(number) = lowest_free(tree, given.of_memory(memory), memory) {
            return Some(number);
        }
    }
    None
}

// The lowest free number of one memory node, of whose numbers so many were given.
fn lowest_free(tree: &PlainTree, given: u32, memory: u32) -> Option<u32>
    requires limits { IsWithinLimits tree.now.geometry }
    requires memory { memory < 8 }
    requires given { AreGiven tree.now memory given }
    ensures { result ≡ find (is_free tree.now) (numbers_of tree.now.geometry memory) }
{
    let given = given.min(tree.geometry.inodes);
    match lowest_freed(tree, given, memory) {
        Some(number) => Some(number),
        None => lowest_unused(tree, given, memory),
    }
}

// The lowest free number among those that were given: one that was freed.
fn lowest_freed(tree: &PlainTree, given: u32, memory: u32) -> Option<u32>
    requires memory { memory < 8 }
    requires few { given ≤ 16384 }
    requires given { AreGiven tree.now memory given }
    ensures { result ≡ find (is_free tree.now) (map (number_of memory) (below given)) }
{
    let first = MAX_INODES * memory + 1;
    let mut inode = 0;
    while inode < given {
        let Some(freed) = tree.freed.next_from(first + inode) else {
            return None;
        };
        if freed >= first + given {
            return None;
        }
        if is_free(tree, freed) {
            return Some(freed);
        }
        inode = freed - first + 1;
    }
    None
}

// The lowest free number of one memory node, where none is among the first ones, so many.
fn lowest_unused(tree: &PlainTree, given: u32, memory: u32) -> Option<u32>
    requires limits { IsWithinLimits tree.now.geometry }
    requires memory { memory < 8 }
    requires few { given ≤ tree.now.geometry.inodes }
    requires none { find (is_free tree.now) (map (number_of memory) (below given)) ≡ None }
    ensures { result ≡ find (is_free tree.now) (numbers_of tree.now.geometry memory) }
{
    for inode in given..tree.geometry.inodes {
        let number = MAX_INODES * memory + inode + 1;
        if is_free(tree, number) {
            return Some(number);
        }
    }
    None
}

// Whether no file has a number, and what it keeps can still rise.
pub(crate) fn is_free(tree: &PlainTree, number: u32) -> bool
    ensures { result ≡ is_free tree.now number }
{
    if tree.files.get(number).is_some() {
        return false;
    }
    match tree.freed.get(number) {
        Some(kept) => kept.generation < u32::MAX && kept.change < u64::MAX,
        None => true,
    }
}

/// Whether a number was picked that a new file can have: one of the cluster that is free.
pub(crate) fn is_pick(tree: &PlainTree, pick: Option<u32>) -> bool
    ensures { result ≡ is_pick tree.now pick }
{
    match pick {
        Some(number) => is_number(&tree.geometry, number) && is_free(tree, number),
        None => false,
    }
}

// Whether a number is one of the cluster.
fn is_number(geometry: &Geometry, number: u32) -> bool
    ensures { result ≡ is_number geometry.now number }
{
    match number.checked_sub(1) {
        Some(place) => place / MAX_INODES < geometry.memories
            && place % MAX_INODES < geometry.inodes,
        None => false,
    }
}
