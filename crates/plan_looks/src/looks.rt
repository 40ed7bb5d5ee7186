ghost use Rattle.std.specs.Prelude.{◌≡◌, [], ◌∷◌, ◌==◌, find, option_map, Some, IfOk};
ghost use Rattle.std.specs.Option.{option_copied};
ghost use Rattle.node_cache.specs.Cached.{held_of};
ghost use Rattle.plan_rules.specs.declared.look.Look.TheVariants as look;
ghost use Rattle.plan_rules.specs.Steps.{Looks as look_at};
ghost use Rattle.plan_rules.specs.Told.{chain_of, group_of};
ghost use Rattle.plan_looks.specs.Goes.{Goes};
ghost use Rattle.plan_looks.specs.Held.{group_in};

use crate::stop::Stop;
use fs_chain::ChainBlock;
use fs_dir::Slot;
use fs_layout::Attrs;
use node_cache::{Held, HeldGroup, Want};
use plan_parts::{chain_of, entry_of, record_of};
use plan_rules::Look;
use sfs_base::Seq;

/// What was looked at, in order.
pub type Looks = Seq<Look>;

/// Looks at the record of a file.
///
/// # Errors
///
/// [`Stop::Need`] where it is not held.
pub fn look_record<'a>(held: &'a Held, looks: &mut Looks, number: u32) -> Result<&'a Attrs, Stop>
    ensures goes { Goes held.now (look_at (look.Record number) ∷ []) looks.old looks.new result }
    ensures gives { IfOk result (λ a. option_map (λ e. e.attrs) (held_of number held.now.entries) ≡ Some a.now) }
{
    match record_of(held, number) {
        Some(attrs) => {
            looks.push(Look::Record(number))?;
            Ok(attrs)
        }
        None => Err(Stop::Need(Want::Inode(number))),
    }
}

/// Looks at a chaining block of a file, by its index.
///
/// # Errors
///
/// [`Stop::Need`] where it is not held.
pub fn look_chain<'a>(
    held: &'a Held,
    looks: &mut Looks,
    number: u32,
    index: u32,
) -> Result<&'a ChainBlock, Stop>
    ensures goes { Goes held.now (look_at (look.Chaining number index) ∷ []) looks.old looks.new result }
    ensures gives { IfOk result (λ c. chain_of held.now number index ≡ Some c.now) }
{
    match chain_of(held, number, index) {
        Some(chain) => {
            looks.push(Look::Chaining(number, index))?;
            Ok(chain)
        }
        None => Err(Stop::Need(Want::Chain(number, index))),
    }
}

/// Looks at a group of slots of a directory, by its index.
///
/// # Errors
///
/// [`Stop::Need`] where it is not held.
pub fn look_group<'a>(
    held: &'a Held,
    looks: &mut Looks,
    number: u32,
    index: u32,
) -> Result<&'a [Slot], Stop>
    ensures goes { Goes held.now (look_at (look.Group number index) ∷ []) looks.old looks.new result }
    ensures gives { IfOk result (λ slots. slots.now ≡ group_of held.now number index) }
{
    match group_in(held, number, index) {
        Some(group) => {
            looks.push(Look::Group(number, index))?;
            Ok(group.slots.as_slice())
        }
        None => Err(Stop::Need(Want::Slots(number, index))),
    }
}

// The group of slots of a directory that has this index, where it is held.
fn group_in(held: &Held, number: u32, index: u32) -> Option<&HeldGroup>
    ensures { option_copied result ≡ group_in held.now number index }
{
    match entry_of(held, number) {
        Some(entry) => first_with(entry.groups.as_slice(), index),
        None => None,
    }
}

// The first one with this index.
fn first_with(groups: &[HeldGroup], index: u32) -> Option<&HeldGroup>
    ensures { option_copied result ≡ find (λ s. s.group == index) groups.now }
{
    groups.iter().find(|group| is_at(group, index))
}

// Whether a group has this index.
fn is_at(group: &HeldGroup, index: u32) -> bool
    ensures { result ≡ (group.now.group == index) }
{
    group.group == index
}
