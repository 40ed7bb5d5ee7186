ghost use Rattle.std.specs.Prelude.{◌≡◌, ◌<◌, ◌≤◌, ◌==◌, ◌++◌, [], ◌∷◌, drop, length, slice_get, IfOk};

use crate::arrival::Arrival;
use circular_buffer::HeapCircularBuffer;
use sfs_base::NoMemory;
use std::alloc::Global;
use std::marker::Model;

/// How many arrivals may wait beside the one that runs.
pub const MAX_WAITING: usize = 32;

/// Arrivals that wait. A contract sees them in the order in which they came.
#[derive(Drop)]
pub struct Waiting {
    arrivals: HeapCircularBuffer<Arrival>,
}

impl Model for Waiting {
    ghost use Rattle.std.specs.Prelude.{◌≡◌, List};
    ghost use Rattle.node_rules.specs.declared.arrival.Arrival.{Arrival as Came};

    ghost Value = { List Came };

    ghost view = { λ w. w.arrivals.items };

    ghost invariant = { λ w. w.arrivals.capacity ≡ 32 };
}

impl Waiting {
    /// No arrival waits. [`NoMemory`] where the places find no memory.
    pub fn new(alloc: Global) -> Result<Waiting, NoMemory>
        ensures { IfOk result (λ w. w ≡ []) }
    {
        Ok(Waiting {
            arrivals: HeapCircularBuffer::with_capacity(alloc, MAX_WAITING)?,
        })
    }

    /// Whether [`MAX_WAITING`] arrivals wait. It takes no memory.
    pub fn is_full(&self) -> bool
        ensures value { result ≡ (length self.now == 32) }
        ensures bounded { length self.now ≤ 32 }
    {
        self.arrivals.len() == MAX_WAITING
    }

    /// An arrival waits behind the others. It takes no memory.
    pub fn push(&mut self, arrival: Arrival)
        requires { length self.old < 32 }
        ensures { self.new ≡ self.old ++ arrival ∷ [] }
    {
        self.arrivals.push_back(arrival);
    }

    /// Takes out the one that came first, if any waits. It takes no memory.
    pub fn pop(&mut self) -> Option<Arrival>
        ensures gives { result ≡ slice_get self.old 0 }
        ensures after { self.new ≡ drop 1 self.old }
    {
        self.arrivals.pop_front()
    }
}
