ghost use Rattle.std.specs.Prelude.{◌≡◌, ℕ, ◌^◌, ◌<◌, ◌≤◌, not, true, false, position, slice_get, IfSome, IfNone};
ghost use Rattle.fs_dir.specs.declared.slot.Slot.{Slot};
ghost use Rattle.fs_dir.specs.Slots.{in_use, has_name};

use crate::slot::Slots;

/// The index of the first slot that has a file with this name. None exactly where none of the first 2^32
/// slots has; a directory has far fewer.
pub fn find(slots: &Slots, name: &[u8]) -> Option<u32>
    ensures found { IfSome result (λ index. position (has_name name.now) slots.now ≡ Some index) }
    ensures none { IfNone result ((k : ℕ) (s : Slot) → k < 2 ^ 32 → slice_get slots.now k ≡ Some s → has_name name.now s ≡ false) }
{
    narrowed(first_with_name(slots, name)?)
}

/// The index of the first empty slot. None exactly where none of the first 2^32 slots is empty.
pub fn lowest_empty(slots: &Slots) -> Option<u32>
    ensures found { IfSome result (λ index. position (λ s. not (in_use s)) slots.now ≡ Some index) }
    ensures none { IfNone result ((k : ℕ) (s : Slot) → k < 2 ^ 32 → slice_get slots.now k ≡ Some s → in_use s ≡ true) }
{
    narrowed(first_empty(slots)?)
}

// Where the first slot with a file of this name is.
fn first_with_name(slots: &Slots, name: &[u8]) -> Option<usize>
    ensures { result ≡ position (has_name name.now) slots.now }
{
    slots.as_slice().iter().position(|slot| slot.has_name(name))
}

// Where the first empty slot is.
fn first_empty(slots: &Slots) -> Option<usize>
    ensures { result ≡ position (λ s. not (in_use s)) slots.now }
{
    slots.as_slice().iter().position(|slot| !slot.is_in_use())
}

// An index, where it is below 2^32.
fn narrowed(index: usize) -> Option<u32>
    ensures found { IfSome result (λ narrow. narrow ≡ index) }
    ensures none { IfNone result (2 ^ 32 ≤ index) }
{
    u32::try_from(index).ok()
}
