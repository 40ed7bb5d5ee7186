ghost use Rattle.std.specs.Prelude.{List};
ghost use Rattle.std.specs.Vec.Iter.{into_iter_items};
ghost use Rattle.tx_coord.specs.declared.outgoing.Outgoing.{Outgoing as Message};

use std::alloc::Global;
use std::marker::Model;
use std::vec::IntoIter;
use tx_coord::{Outbox, Outgoing};

/// Messages that are taken one after another. A contract sees those that are left.
#[derive(Drop)]
pub(crate) struct Queue {
    rest: IntoIter<Outgoing, Global>,
}

impl Model for Queue {
    ghost Value = { List Message };

    ghost view = { λ q. into_iter_items q.rest };
}

impl Queue {
    ghost use Rattle.std.specs.Prelude.{◌≡◌, ◌++◌, [], option_to_list, IfNone};

    /// These messages. It takes no memory.
    pub(crate) fn new(posts: Outbox) -> Queue
        ensures { result ≡ posts }
    {
        Queue {
            rest: posts.into_vec().into_iter(),
        }
    }

    /// The next one, if one is left. It takes no memory.
    pub(crate) fn next(&mut self) -> Option<Outgoing>
        ensures next { self.old ≡ option_to_list result ++ self.new }
        ensures none { IfNone result (self.old ≡ []) }
    {
        self.rest.next()
    }
}
