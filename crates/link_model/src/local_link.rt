ghost use Rattle.std.specs.Prelude.{◌≡◌, ◌+◌, ◌^◌, ◌<◌, length};
ghost use Rattle.link_model.specs.Slots.{IsFirstSlot};

use crate::place::Place;
use std::alloc::Global;
use std::collections::VecDeque;

/// A link that gives each message once: a queue, which keeps none that was given.
#[derive(Debug, Drop)]
pub struct LocalLink {
    pub(crate) gone: u64,
    pub(crate) slots: VecDeque<Option<Place>>,
    pub(crate) first: usize,
    ghost least: { IsFirstSlot slots.items first },
    ghost few: { gone + length slots.items < 2 ^ 64 },
}

impl LocalLink {
    ghost use Rattle.std.specs.Prelude.{[]};
    ghost use Rattle.link_model.specs.Local.{slots_in, stands_for};

    /// A link on which nothing was posted. It takes no memory.
    pub fn new(alloc: Global) -> LocalLink
        ensures none { slots_in result ≡ [] }
        ensures stands { stands_for result [] }
    {
        LocalLink {
            gone: 0,
            slots: VecDeque::new(alloc),
            first: 0,
        }
    }
}
