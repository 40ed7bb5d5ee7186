ghost use Rattle.std.specs.Prelude.{◌≡◌, map, IfOk};
ghost use Rattle.mini_tx.specs.Minitransactions.{memory_of, TakePart};

use crate::item::Item;
use sfs_base::NoMemory;
use std::alloc::Global;

/// The numbers of the items' memory nodes: each once, in ascending order.
pub(crate) fn participants_of(alloc: Global, items: &[Item]) -> Result<Vec<u32>, NoMemory>
    ensures { IfOk result (λ numbers. TakePart items.now numbers.items) }
{
    let mut numbers = memories_of(alloc, items)?;
    numbers.sort_unstable();
    numbers.dedup();
    Ok(numbers)
}

// The number of each item's memory node.
fn memories_of(alloc: Global, items: &[Item]) -> Result<Vec<u32>, NoMemory>
    ensures { IfOk result (λ numbers. numbers.items ≡ map memory_of items.now) }
{
    Ok(items.iter().map(|item| item.memory()).collect(alloc)?)
}
