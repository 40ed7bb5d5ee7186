ghost use Rattle.std.specs.Prelude.{◌≡◌, find, position, is_none};
ghost use Rattle.std.specs.Option.{option_copied};
ghost use Rattle.fs_rules.specs.Slots as rule;

use fs_rules::{Entry, Slots};

/// The slot of a directory that has a name.
pub fn slot_of(slots: &Slots, name: &[u8]) -> Option<usize>
    ensures { result ≡ rule.slot_of slots.now name.now }
{
    slots
        .as_slice()
        .iter()
        .position(|slot| has_name(slot, name))
}

/// The number of the file that a name of a directory names.
pub fn file_named(slots: &Slots, name: &[u8]) -> Option<u32>
    ensures { result ≡ rule.file_named slots.now name.now }
{
    match slot_named(slots, name) {
        Some(Some(entry)) => Some(entry.file),
        Some(None) | None => None,
    }
}

// The slot of a directory that has a name, with its number.
fn slot_named<'a>(slots: &'a Slots, name: &[u8]) -> Option<&'a Option<Entry>>
    ensures { option_copied result ≡ find (rule.has_name name.now) slots.now }
{
    slots.as_slice().iter().find(|slot| has_name(slot, name))
}

/// Whether a directory has a name.
pub fn is_in_use(slots: &Slots) -> bool
    ensures { result ≡ rule.is_in_use slots.now }
{
    slots.as_slice().iter().any(|slot| slot.is_some())
}

// The slot that a name gets: the one that it has, else the lowest empty one.
pub(crate) fn slot_for(slots: &Slots, name: &[u8]) -> Option<usize>
    ensures { result ≡ rule.slot_for slots.now name.now }
{
    match slot_of(slots, name) {
        Some(at) => Some(at),
        None => lowest_empty(slots),
    }
}

// The lowest empty slot.
fn lowest_empty(slots: &Slots) -> Option<usize>
    ensures { result ≡ position is_none slots.now }
{
    slots.as_slice().iter().position(|slot| slot.is_none())
}

// Whether a slot has a name.
fn has_name(slot: &Option<Entry>, name: &[u8]) -> bool
    ensures { result ≡ rule.has_name name.now slot.now }
{
    match slot {
        Some(entry) => name == entry.name.as_slice(),
        None => false,
    }
}
