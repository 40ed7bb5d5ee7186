ghost use Rattle.std.specs.Prelude.{◌≡◌, ◌+◌, ◌<◌, ◌^◌, false, find, option_map, Some, IfOk};
ghost use Rattle.std.specs.List.{list_any};
ghost use Rattle.fs_dir.specs.Slots.{has_name};
ghost use Rattle.node_cache.specs.Cached.{held_of};
ghost use Rattle.plan_rules.specs.Names.{group_steps, name_steps, list_steps};
ghost use Rattle.plan_rules.specs.Told.{dir_groups, found};
ghost use Rattle.plan_looks.specs.Goes.{Goes};
ghost use Rattle.plan_looks.specs.Names.{first_steps, groups_from, named_in};

use crate::looks::{Looks, look_chain, look_group};
use crate::stop::Stop;
use fs_dir::Slot;
use fs_layout::Attrs;
use node_cache::{BLOCKS_PER_GROUP, Held};
use plan_parts::dir_blocks;

/// Looks for a name in the directory with this number and record: at its first chaining block, and at its groups of
/// slots up to the one that has the name. Gives the number of the file that has it, in one pass.
///
/// # Errors
///
/// [`Stop::Need`] where one of these is not held.
pub fn look_name(
    held: &Held,
    looks: &mut Looks,
    number: u32,
    attrs: &Attrs,
    name: &[u8],
) -> Result<Option<u32>, Stop>
    requires { option_map (λ e. e.attrs) (held_of number held.now.entries) ≡ Some attrs.now }
    ensures goes { Goes held.now (name_steps held.now number name.now) looks.old looks.new result }
    ensures gives { IfOk result (λ m. m ≡ found held.now number name.now) }
{
    look_first(held, looks, number, attrs)?;
    look_in_groups(held, looks, number, name, 0, groups(attrs))
}

/// Looks at all slots of the directory with this number and record: at its first chaining block, and at its groups.
///
/// # Errors
///
/// [`Stop::Need`] where one of these is not held.
pub fn look_names(held: &Held, looks: &mut Looks, number: u32, attrs: &Attrs) -> Result<(), Stop>
    requires { option_map (λ e. e.attrs) (held_of number held.now.entries) ≡ Some attrs.now }
    ensures { Goes held.now (list_steps held.now number) looks.old looks.new result }
{
    look_first(held, looks, number, attrs)?;
    look_at_groups(held, looks, number, 0, groups(attrs))
}

// Looks at the first chaining block, where the record tells one.
fn look_first(held: &Held, looks: &mut Looks, number: u32, attrs: &Attrs) -> Result<(), Stop>
    requires { option_map (λ e. e.attrs) (held_of number held.now.entries) ≡ Some attrs.now }
    ensures { Goes held.now (first_steps held.now number) looks.old looks.new result }
{
    if attrs.chains == 0 {
        return Ok(());
    }
    look_chain(held, looks, number, 0)?;
    Ok(())
}

// How many groups of slots a record tells.
fn groups(attrs: &Attrs) -> u32
    ensures exact { result ≡ dir_groups attrs.now }
    ensures few { result < 2 ^ 31 }
{
    dir_blocks(attrs).div_ceil(BLOCKS_PER_GROUP)
}

// Looks for a name in so many groups from one on.
fn look_in_groups(
    held: &Held,
    looks: &mut Looks,
    number: u32,
    name: &[u8],
    group: u32,
    left: u32,
) -> Result<Option<u32>, Stop>
    requires { group + left < 2 ^ 31 }
    ensures goes { Goes held.now (group_steps held.now number (list_any (has_name name.now)) group left) looks.old looks.new result }
    ensures gives { IfOk result (λ m. m ≡ named_in name.now (groups_from held.now number group left)) }
{
    if left == 0 {
        return Ok(None);
    }
    let slots = look_group(held, looks, number, group)?;
    match named_in(slots, name) {
        Some(file) => Ok(Some(file)),
        None => look_in_groups(held, looks, number, name, group + 1, left - 1),
    }
}

// The number of the file in slots that has a name.
fn named_in(slots: &[Slot], name: &[u8]) -> Option<u32>
    ensures { result ≡ named_in name.now slots.now }
{
    let slot = slots.iter().find(|slot| slot.has_name(name))?;
    Some(slot.number)
}

// Looks at so many groups from one on.
fn look_at_groups(
    held: &Held,
    looks: &mut Looks,
    number: u32,
    group: u32,
    left: u32,
) -> Result<(), Stop>
    requires { group + left < 2 ^ 31 }
    ensures { Goes held.now (group_steps held.now number (λ slots. false) group left) looks.old looks.new result }
{
    if left == 0 {
        return Ok(());
    }
    look_group(held, looks, number, group)?;
    look_at_groups(held, looks, number, group + 1, left - 1)
}
