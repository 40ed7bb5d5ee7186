ghost use Rattle.std.specs.Prelude.{◌≡◌, IfOk, OnErr};
ghost use Rattle.schedule_maker.specs.Making.{FirstOf, schedule};

use crate::stage::Stage;
use crate::turns::Turns;
use event_text::Event;
use sfs_base::NoMemory;
use std::alloc::Global;
use std::marker::Model;
use std::vec::IntoIter;

/// The events of a schedule that a number makes, one after another; seen as those that are left.
#[derive(Drop)]
pub struct Generator {
    alloc: Global,
    queue: IntoIter<Event, Global>,
    turns: Turns,
}

impl Model for Generator {
    ghost use Rattle.std.specs.Prelude.{◌++◌, List};
    ghost use Rattle.std.specs.Vec.Iter.{into_iter_items};
    ghost use Rattle.event_text.specs.declared.event.Event.{Event as TheEvent};
    ghost use Rattle.schedule_maker.specs.Left.{left_of};

    ghost Value = { List TheEvent };

    ghost view = { λ g. into_iter_items g.queue ++ left_of g.turns };
}

impl Generator {
    /// The events of the schedule of this number, with so many arrivals. It takes no memory.
    pub fn new(alloc: Global, seed: u64, count: u32) -> Generator
        ensures { result ≡ schedule seed count }
    {
        Generator {
            alloc,
            queue: Vec::new(alloc).into_iter(),
            turns: Turns {
                stage: Stage::Cluster,
                made: 0,
                left: count,
                x: seed,
            },
        }
    }

    /// The next event; `None` exactly after [`Event::End`]. [`NoMemory`]: the events that are left are those that
    /// were left.
    pub fn next(&mut self) -> Result<Option<Event>, NoMemory>
        ensures first { IfOk result (FirstOf self.old self.new) }
        ensures err { OnErr result (self.new ≡ self.old) }
    {
        if let Some(event) = self.queue.next() {
            return Ok(Some(event));
        }
        self.queue = self.turns.more(self.alloc)?.into_iter();
        Ok(self.queue.next())
    }
}
