ghost use Rattle.std.specs.Prelude.{◌≡◌, ◌≢◌, List, None, Some, Err, IfOk};
ghost use Rattle.mini_tx.specs.declared.item.Item.{Item as ItemValue};
ghost use Rattle.mini_tx.specs.declared.mini_fault.MiniFault.TheVariants.{NoMemory as no_memory};
ghost use Rattle.mini_tx.specs.Minitransactions.{refusal, TakePart};

use crate::item::{Item, Items};
use crate::mini_fault::MiniFault;
use crate::participants::participants_of;
use crate::refusal::refusal_of;
use std::alloc::Global;
use std::marker::Model;

/// A minitransaction: items that may be performed together. A contract sees its items.
#[derive(Debug, Drop)]
pub struct Mini {
    items: Items,
    participants: Vec<u32>,
}

impl Model for Mini {
    ghost Value = { List ItemValue };

    ghost view = { λ m. m.items };

    ghost invariant = { λ m. TakePart m.items m.participants.items };
}

impl Mini {
    /// A minitransaction of these items, over `memories` memory nodes of `size` bytes. It is refused, in
    /// this order: `Empty` exactly with no item, `TooManyItems` exactly above [`crate::MAX_ITEMS`],
    /// `TooLarge` exactly above [`crate::MAX_ITEM_BYTES`] bytes of all items, `OutOfRange` exactly where an
    /// item is empty, of a memory node that is not there, or ends past the size, and `Overlap` exactly
    /// where a write item overlaps an earlier write item; each names the first such item. `NoMemory` comes
    /// only where none of these does. No item's bytes are looked at or copied.
    pub fn new(alloc: Global, items: Items, memories: u32, size: u32) -> Result<Mini, MiniFault>
        ensures made { IfOk result (λ m. m ≡ items) }
        ensures valid { IfOk result (λ m. refusal items memories size ≡ None) }
        ensures refused { (fault : _) → result ≡ Err fault → fault ≢ no_memory → refusal items memories size ≡ Some fault }
        ensures starved { result ≡ Err no_memory → refusal items memories size ≡ None }
    {
        match refusal_of(items.as_slice(), memories, size) {
            Some(fault) => Err(fault),
            None => Mini::of(alloc, items),
        }
    }

    /// The items, as they were given. It takes no memory.
    pub fn items(&self) -> &Items
        ensures { result.now ≡ self.now }
    {
        &self.items
    }

    /// The memory nodes of its items: each once, in ascending order. It takes no memory.
    pub fn participants(&self) -> &[u32]
        ensures { TakePart self.now result.now }
    {
        self.participants.as_slice()
    }

    // The minitransaction of these items.
    fn of(alloc: Global, items: Items) -> Result<Mini, MiniFault>
        ensures made { IfOk result (λ m. m ≡ items) }
        ensures starved { (fault : _) → result ≡ Err fault → fault ≡ no_memory }
    {
        let participants = participants_of(alloc, items.as_slice())?;
        Ok(Mini {
            items,
            participants,
        })
    }
}
