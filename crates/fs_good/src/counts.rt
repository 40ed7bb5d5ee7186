ghost use Rattle.std.specs.Prelude.{◌≡◌, ◌==◌, Some, ◌+◌, ◌↔◌, ℕ, [], ◌∷◌, if◌then◌else◌, count_by, IsTrue, IfOk, OnOk};
ghost use Rattle.std.specs.FinMap as table;
ghost use Rattle.fs_rules.specs.declared.file.File.{File};
ghost use Rattle.fs_rules.specs.File.{slots_of};
ghost use Rattle.fs_rules.specs.Good.{names_file, naming_slots};
ghost use Rattle.fs_laws.proofs.WholeLemmas.{due_of};
ghost use Rattle.fs_good.specs.Counts.{AreNamed, IsCapped, count_in};
ghost use Rattle.fs_good.specs.Places.{AreInPlace};

use fs_rules::{Content, Entry, File, NoMemory, PlainTree, ROOT};
use sfs_base::Table;
use std::alloc::Global;

// Whether each file is named as often as it has to be.
pub(crate) fn are_named(alloc: Global, tree: &PlainTree) -> Result<bool, NoMemory>
    requires { AreInPlace tree.now }
    ensures { IfOk result (λ are. IsTrue are ↔ AreNamed tree.now) }
{
    let counts = count_names(alloc, tree)?;
    Ok(are_due(&counts, tree))
}

// Whether each file is counted as often as it has to be named.
fn are_due(counts: &Table<u32>, tree: &PlainTree) -> bool
    ensures { IsTrue result ↔ ((n : ℕ) (f : File) → table.get tree.now.files n ≡ Some f
        → count_in counts.now n ≡ due_of n f f.content) }
{
    for (number, file) in tree.files.iter() {
        if !is_due(counts, *number, file) {
            return false;
        }
    }
    true
}

// Whether a file is counted as often as it has to be named.
fn is_due(counts: &Table<u32>, number: u32, file: &File) -> bool
    ensures { IsTrue result ↔ (count_in counts.now number ≡ due_of number file.now file.now.content) }
{
    count_of(counts, number) == due_of(number, file)
}

// How often a file with this number has to be named.
fn due_of(number: u32, file: &File) -> u32
    ensures { result ≡ due_of number file.now file.now.content }
{
    match &file.content {
        Content::Directory { .. } => due_of_directory(number),
        _ => file.links,
    }
}

// How often a directory with this number has to be named: the root is not.
fn due_of_directory(number: u32) -> u32
    ensures { result ≡ (if number == 1 then 0 else 1) }
{
    if number == ROOT { 0 } else { 1 }
}

// How often each number is named.
fn count_names(alloc: Global, tree: &PlainTree) -> Result<Table<u32>, NoMemory>
    ensures { IfOk result (λ counts. (n : ℕ) → IsCapped (count_in counts n) (naming_slots tree.now n)) }
{
    let mut counts = Table::new(alloc);
    for (_, file) in tree.files.iter() {
        count_file(&mut counts, &file.content)?;
    }
    Ok(counts)
}

// Counts the names of a file.
fn count_file(counts: &mut Table<u32>, content: &Content) -> Result<(), NoMemory>
    ensures { OnOk result ((n : ℕ) → IsCapped (count_in counts.new n)
        (count_in counts.old n + count_by (names_file n) (slots_of content.now))) }
{
    match content {
        Content::Directory { slots, .. } => count_slots(counts, slots.as_slice()),
        _ => Ok(()),
    }
}

// Counts the names in slots.
fn count_slots(counts: &mut Table<u32>, slots: &[Option<Entry>]) -> Result<(), NoMemory>
    ensures { OnOk result ((n : ℕ) → IsCapped (count_in counts.new n)
        (count_in counts.old n + count_by (names_file n) slots.now)) }
{
    for slot in slots {
        count_slot(counts, slot)?;
    }
    Ok(())
}

// Counts the name in a slot, if there is one.
fn count_slot(counts: &mut Table<u32>, slot: &Option<Entry>) -> Result<(), NoMemory>
    ensures { OnOk result ((n : ℕ) → IsCapped (count_in counts.new n)
        (count_in counts.old n + count_by (names_file n) (slot.now ∷ []))) }
{
    match slot {
        Some(entry) => count_one(counts, entry.file),
        None => Ok(()),
    }
}

// Counts a number once more.
fn count_one(counts: &mut Table<u32>, number: u32) -> Result<(), NoMemory>
    ensures here { OnOk result (IsCapped (count_in counts.new number) (count_in counts.old number + 1)) }
    ensures others { OnOk result ((n : ℕ) → (n ≡ number → ⊥) → count_in counts.new n ≡ count_in counts.old n) }
{
    let more = one_more(count_of(counts, number));
    counts.insert(number, more)?;
    Ok(())
}

// One more, up to the greatest number of a word.
fn one_more(count: u32) -> u32
    ensures { IsCapped result (count + 1) }
{
    count.saturating_add(1)
}

// What is counted at a number.
fn count_of(counts: &Table<u32>, number: u32) -> u32
    ensures { result ≡ count_in counts.now number }
{
    match counts.get(number) {
        Some(count) => *count,
        None => 0,
    }
}
