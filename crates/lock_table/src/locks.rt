ghost use Rattle.std.specs.Prelude.{◌≡◌, [], length};
ghost use Rattle.std.specs.List.{AllByRecursion-prop};
ghost use Rattle.std.proofs.Props.{props};
ghost use Rattle.lock_table.specs.Locked.{IsLine, IsLine-prop};

use crate::calls::{free_all, least_holder, lock_all};
use crate::lock::Lock;
use mini_tx::{Range, TxId};
use std::alloc::{AllocError, Global};

/// Which identifier locks which places. The locks lie one behind another.
#[derive(Drop)]
pub struct Locks {
    pub(crate) locks: Vec<Lock>,
    ghost line: { IsLine locks.items } by { Prim.hlevel (props, AllByRecursion-prop, IsLine-prop) },
}

impl Locks {
    ghost use Rattle.std.specs.Prelude.{OnOk, All};
    ghost use Rattle.lock_table.specs.Order.{IsLeastIn};
    ghost use Rattle.lock_table.specs.Spans.{IsNonempty};
    ghost use Rattle.lock_table.specs.Table.{locks_in, HasRoom};
    ghost use Rattle.lock_table.specs.Locked.{Blocks, IsFreeFor, IsWhole, IsLockedBeside, IsFreed};

    /// Nothing is locked. It takes no memory.
    pub fn new(alloc: Global) -> Locks
        ensures { locks_in result ≡ [] }
    {
        Locks {
            locks: Vec::new(alloc),
        }
    }

    /// Takes the memory for so many more ranges. [`AllocError`]: there is none.
    pub fn reserve(&mut self, count: usize) -> Result<(), AllocError>
        ensures room { OnOk result (HasRoom self.new count) }
        ensures same { locks_in self.new ≡ locks_in self.old }
    {
        self.locks.reserve(count)
    }

    /// The least identifier that locks a place of these ranges. It takes no memory.
    pub fn least(&self, ranges: &[Range]) -> Option<TxId>
        requires { All IsNonempty ranges.now }
        ensures { IsLeastIn (Blocks (locks_in self.now) ranges.now) result }
    {
        least_holder(&self.locks, ranges)
    }

    /// Locks these ranges for an identifier; no other locks a place of them. It takes no memory.
    pub fn lock(&mut self, holder: TxId, ranges: &[Range])
        requires some { All IsNonempty ranges.now }
        requires free { IsFreeFor (locks_in self.old) holder ranges.now }
        requires room { HasRoom self.old (length ranges.now) }
        ensures { IsLockedBeside (locks_in self.old) (locks_in self.new) holder ranges.now }
    {
        lock_all(&mut self.locks, holder, ranges);
    }

    /// Frees the places that an identifier locks, which are those of these ranges. It takes no memory.
    pub fn free(&mut self, holder: TxId, ranges: &[Range])
        requires some { All IsNonempty ranges.now }
        requires free { IsFreeFor (locks_in self.old) holder ranges.now }
        requires whole { IsWhole (locks_in self.old) holder ranges.now }
        ensures { IsFreed (locks_in self.old) (locks_in self.new) holder }
    {
        free_all(&mut self.locks, holder, ranges);
    }
}
