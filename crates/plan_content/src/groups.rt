ghost use Rattle.std.specs.Prelude.{◌≡◌, ◌^◌, ◌<◌, ◌==◌, find};
ghost use Rattle.std.specs.Option.{option_copied};
ghost use Rattle.plan_rules.specs.Told.{dir_groups, group_of};
ghost use Rattle.plan_looks.specs.Held.{group_in};

use fs_dir::Slot;
use fs_layout::Attrs;
use node_cache::{BLOCKS_PER_GROUP, Held, HeldGroup};
use plan_parts::{dir_blocks, entry_of};

/// How many groups of slots a record tells.
pub(crate) fn groups_in(attrs: &Attrs) -> u32
    ensures exact { result ≡ dir_groups attrs.now }
    ensures few { result < 2 ^ 31 }
{
    dir_blocks(attrs).div_ceil(BLOCKS_PER_GROUP)
}

/// The slots of a group of a directory, by its index: none where it is not held.
pub(crate) fn slots_in(held: &Held, number: u32, group: u32) -> &[Slot]
    ensures { result.now ≡ group_of held.now number group }
{
    match group_in(held, number, group) {
        Some(found) => found.slots.as_slice(),
        None => &[],
    }
}

// The group of slots of a directory that has this index, where it is held.
fn group_in(held: &Held, number: u32, index: u32) -> Option<&HeldGroup>
    ensures { option_copied result ≡ group_in held.now number index }
{
    match entry_of(held, number) {
        Some(entry) => first_with(entry.groups.as_slice(), index),
        None => None,
    }
}

// The first one with this index.
fn first_with(groups: &[HeldGroup], index: u32) -> Option<&HeldGroup>
    ensures { option_copied result ≡ find (λ s. s.group == index) groups.now }
{
    groups.iter().find(|group| is_at(group, index))
}

// Whether a group has this index.
fn is_at(group: &HeldGroup, index: u32) -> bool
    ensures { result ≡ (group.now.group == index) }
{
    group.group == index
}
