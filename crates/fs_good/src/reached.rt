ghost use Rattle.std.specs.Prelude.{◌≡◌, ◌≢◌, ◌↔◌, ℕ, None, length, IsTrue, IfOk, OnOk};
ghost use Rattle.std.specs.FinMap as table;
ghost use Rattle.fs_rules.specs.Geometry.{IsWithinLimits};
ghost use Rattle.fs_rules.specs.Good.{parent_at};
ghost use Rattle.fs_good.specs.Reached.{AllLead, AreParents, IsReached, IsReady, IsSlotReached, Reaches, slots_in};

use crate::shape::parent_at;
use fs_rules::{Content, Entry, MAX_INODES, MAX_MEMORIES, NoMemory, PlainTree, ROOT};
use sfs_base::Table;
use std::alloc::Global;

// Whether parents lead from each directory to the root: each one is reached from there by the slots.
pub(crate) fn lead(alloc: Global, tree: &PlainTree) -> Result<bool, NoMemory>
    requires limits { IsWithinLimits tree.now.geometry }
    requires ready { IsReady tree.now }
    ensures { IfOk result (λ are. IsTrue are ↔ AllLead tree.now) }
{
    let mut unknown = parents_of(alloc, tree)?;
    let mut work = vec![in alloc; ROOT]?;
    while let Some(number) = work.pop() {
        look_into(tree, &mut unknown, &mut work, number)?;
    }
    Ok(unknown.is_empty())
}

// All directories but the root, each with its parent.
fn parents_of(alloc: Global, tree: &PlainTree) -> Result<Table<u32>, NoMemory>
    requires limits { IsWithinLimits tree.now.geometry }
    requires ready { IsReady tree.now }
    ensures { IfOk result (λ parents. AreParents tree.now parents) }
{
    let mut parents = Table::new(alloc);
    for number in ROOT + 1..MAX_INODES * MAX_MEMORIES + 1 {
        note_parent(tree, &mut parents, number)?;
    }
    Ok(parents)
}

// Notes the parent of the file with a number, where it is a directory.
fn note_parent(tree: &PlainTree, parents: &mut Table<u32>, number: u32) -> Result<(), NoMemory>
    requires { table.get parents.old number ≡ None }
    ensures here { OnOk result (table.get parents.new number ≡ parent_at tree.now number) }
    ensures others { OnOk result ((n : ℕ) → n ≢ number → table.get parents.new n ≡ table.get parents.old n) }
{
    if let Some(parent) = parent_at(tree, number) {
        parents.insert(number, parent)?;
    }
    Ok(())
}

// Takes the directories that the slots of this one name from those that were not reached, to look into them later.
fn look_into(
    tree: &PlainTree,
    unknown: &mut Table<u32>,
    work: &mut Vec<u32>,
    number: u32,
) -> Result<(), NoMemory>
    ensures { OnOk result (Reaches (slots_in tree.now number)
        (length (slots_in tree.now number)) unknown.old work.old.items unknown.new work.new.items) }
{
    let Some(file) = tree.files.get(number) else {
        return Ok(());
    };
    match &file.content {
        Content::Directory { slots, .. } => reach_all(unknown, work, slots.as_slice()),
        _ => Ok(()),
    }
}

// Takes the directories that these slots name from those that were not reached.
fn reach_all(
    unknown: &mut Table<u32>,
    work: &mut Vec<u32>,
    slots: &[Option<Entry>],
) -> Result<(), NoMemory>
    ensures { OnOk result (Reaches slots.now (length slots.now) unknown.old work.old.items unknown.new work.new.items) }
{
    for slot in slots {
        reach(unknown, work, slot)?;
    }
    Ok(())
}

// Takes the directory that a slot names from those that were not reached, if it is one.
fn reach(
    unknown: &mut Table<u32>,
    work: &mut Vec<u32>,
    slot: &Option<Entry>,
) -> Result<(), NoMemory>
    ensures { OnOk result (IsSlotReached slot.now unknown.old work.old.items unknown.new work.new.items) }
{
    match slot {
        Some(entry) => reach_one(unknown, work, entry.file),
        None => Ok(()),
    }
}

// Takes a number from those that were not reached, if it is one.
fn reach_one(unknown: &mut Table<u32>, work: &mut Vec<u32>, number: u32) -> Result<(), NoMemory>
    ensures { OnOk result (IsReached number unknown.old work.old.items unknown.new work.new.items) }
{
    if unknown.remove(number).is_some() {
        work.push(number)?;
    }
    Ok(())
}
