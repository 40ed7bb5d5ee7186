ghost use Rattle.std.specs.Prelude.{◌≡◌, ◌↔◌, ◌%◌, ℕ, ◌<◌, ◌≤◌, Some, length, slice_get, IsTrue, IfOk};
ghost use Rattle.fs_rules.specs.declared.entry.Entry.{Entry};
ghost use Rattle.fs_rules.specs.Good.{IsName};
ghost use Rattle.fs_laws.proofs.WholeLemmas.{IsSlotList};
ghost use Rattle.fs_good.specs.Places.{AreDistinct, Below, IsFirst, IsNameTaken, IsTaken};

use crate::name::is_name;
use fs_rules::{Entry, NoMemory, SLOTS_PER_BLOCK};
use std::alloc::Global;
use std::collections::BTreeSet;

/// The most slots of a directory: those of as many blocks as a chaining block refers to.
const MAX_SLOTS: usize = 7_650;

// Whether these are the slots of a directory, as far as they themselves tell.
pub(crate) fn is_slot_list(alloc: Global, slots: &[Option<Entry>]) -> bool
    ensures { IsTrue result ↔ IsSlotList slots.now }
{
    are_named(slots) && are_distinct(alloc, slots)
}

// Whether they are those of whole blocks, not too many, and each empty or with a name.
fn are_named(slots: &[Option<Entry>]) -> bool
    ensures { IsTrue result ↔ (((length slots.now % 15 ≡ 0) × (length slots.now ≤ 7650))
        × ((i : ℕ) (e : Entry) → slice_get slots.now i ≡ Some (Some e) → IsName e.name)) }
{
    are_whole(slots) && have_names(slots)
}

// Whether they are those of whole blocks, and not too many.
fn are_whole(slots: &[Option<Entry>]) -> bool
    ensures { IsTrue result ↔ ((length slots.now % 15 ≡ 0) × (length slots.now ≤ 7650)) }
{
    slots.len() % SLOTS_PER_BLOCK == 0 && slots.len() <= MAX_SLOTS
}

// Whether each slot is empty or has a name.
fn have_names(slots: &[Option<Entry>]) -> bool
    ensures { IsTrue result ↔ ((i : ℕ) (e : Entry) → slice_get slots.now i ≡ Some (Some e) → IsName e.name) }
{
    for slot in slots {
        if !has_name(slot) {
            return false;
        }
    }
    true
}

// Whether a slot is empty or has a name.
fn has_name(slot: &Option<Entry>) -> bool
    ensures { IsTrue result ↔ ((e : Entry) → slot.now ≡ Some e → IsName e.name) }
{
    match slot {
        Some(entry) => is_name(entry.name.as_slice()),
        None => true,
    }
}

// Whether no two slots have the same name. With no memory for a set of names, each name is compared with each other.
fn are_distinct(alloc: Global, slots: &[Option<Entry>]) -> bool
    ensures { IsTrue result ↔ AreDistinct slots.now }
{
    match are_new(alloc, slots) {
        Ok(are) => are,
        Err(NoMemory) => are_apart(slots),
    }
}

// Whether no slot has the name of one before it, by a set of the names so far.
fn are_new(alloc: Global, slots: &[Option<Entry>]) -> Result<bool, NoMemory>
    ensures { IfOk result (λ are. IsTrue are ↔ AreDistinct slots.now) }
{
    let mut names = BTreeSet::new(alloc);
    for slot in slots {
        if !take_slot(&mut names, slot)? {
            return Ok(false);
        }
    }
    Ok(true)
}

// Takes the name of a slot, if it has one. `false`: it was taken before.
fn take_slot<'a>(
    names: &mut BTreeSet<&'a [u8], Global>,
    slot: &'a Option<Entry>,
) -> Result<bool, NoMemory>
    ensures { IfOk result (IsTaken names.old.keys names.new.keys slot.now) }
{
    match slot {
        Some(entry) => take_name(names, entry.name.as_slice()),
        None => Ok(true),
    }
}

// Takes a name. `false`: it was taken before.
fn take_name<'a>(names: &mut BTreeSet<&'a [u8], Global>, name: &'a [u8]) -> Result<bool, NoMemory>
    ensures { IfOk result (IsNameTaken names.old.keys names.new.keys name.now) }
{
    Ok(names.insert(name)?)
}

// Whether no two slots have the same name, by comparing each with those before it.
fn are_apart(slots: &[Option<Entry>]) -> bool
    ensures { IsTrue result ↔ AreDistinct slots.now }
{
    for index in 0..slots.len() {
        if !is_first(slots, index) {
            return false;
        }
    }
    true
}

// Whether the name of a slot, if it has one, is none of those before it.
fn is_first(slots: &[Option<Entry>], index: usize) -> bool
    requires { index < length slots.now }
    ensures { IsTrue result ↔ IsFirst slots.now index }
{
    match &slots[index] {
        Some(entry) => are_others(slots, index, entry.name.as_slice()),
        None => true,
    }
}

// Whether so many slots have not this name.
fn are_others(slots: &[Option<Entry>], end: usize, name: &[u8]) -> bool
    requires { end ≤ length slots.now }
    ensures { IsTrue result ↔ Below (λ e. e.name ≡ name.now → ⊥) slots.now end }
{
    for index in 0..end {
        if !is_other(&slots[index], name) {
            return false;
        }
    }
    true
}

// Whether a slot has not this name.
fn is_other(slot: &Option<Entry>, name: &[u8]) -> bool
    ensures { IsTrue result ↔ ((e : Entry) → slot.now ≡ Some e → e.name ≡ name.now → ⊥) }
{
    match slot {
        Some(entry) => entry.name.as_slice() != name,
        None => true,
    }
}
