ghost use Rattle.grant_ledger.specs.Doubts.{AreAscending};
ghost use Rattle.grant_ledger.specs.declared.doubt.Doubt.{Doubt as Entered};
ghost use Rattle.std.specs.Prelude.{List};

use crate::doubt::Doubt;
use crate::places::{find, grant, put, take};
use mini_tx::TxId;
use sfs_base::NoMemory;
use std::alloc::Global;
use std::marker::Model;

/// The identifiers in doubt. A contract sees their entries, in ascending order.
#[derive(Debug, Drop)]
pub struct Ledger {
    alloc: Global,
    doubts: Vec<Doubt>,
}

impl Model for Ledger {
    ghost Value = { List Entered };

    ghost view = { λ l. l.doubts.items };

    ghost invariant = { λ l. AreAscending l.doubts.items };
}

impl Ledger {
    ghost use Rattle.std.specs.Prelude.{◌≡◌, [], None, Some, length, if◌then◌else◌, OnOk, OnErr};
    ghost use Rattle.mini_tx.specs.Order.{is_same};
    ghost use Rattle.mini_tx.specs.declared.tx_id.TxId.{TxId as Identifier};
    ghost use Rattle.grant_ledger.specs.Doubts.{waits_of, after_grant, is_last};

    /// A ledger without an entry. It takes no memory.
    pub fn new(alloc: Global) -> Ledger
        ensures { result ≡ [] }
    {
        Ledger {
            alloc,
            doubts: Vec::new(alloc),
        }
    }

    /// How many identifiers are in doubt. It takes no memory.
    pub fn len(&self) -> usize
        ensures { result ≡ length self.now }
    {
        self.doubts.len()
    }

    /// Enters an identifier of which there is no entry, none of whose participants has granted it.
    /// [`NoMemory`]: nothing was entered.
    pub fn enter(&mut self, id: TxId, participants: &[u32]) -> Result<(), NoMemory>
        requires { waits_of self.old id ≡ None }
        ensures entered { OnOk result ((other : Identifier) → waits_of self.new other
            ≡ (if is_same id other then Some participants.now else waits_of self.old other)) }
        ensures kept { OnErr result (self.new ≡ self.old) }
    {
        let waits = Vec::from_slice(self.alloc, participants)?;
        put(&mut self.doubts, Doubt { id, waits })
    }

    /// A participant has granted an identifier. Tells whether it was the last one; the identifier is then no
    /// longer in doubt. One of which there is no entry, and a participant that does not wait, change nothing.
    /// It takes no memory.
    pub fn grant(&mut self, id: TxId, memory: u32) -> bool
        ensures last { result ≡ is_last (waits_of self.old id) memory }
        ensures granted { (other : Identifier) → waits_of self.new other
            ≡ (if is_same id other then after_grant (waits_of self.old id) memory else waits_of self.old other) }
    {
        let Some(at) = find(&self.doubts, id) else {
            return false;
        };
        grant(&mut self.doubts, id, at, memory)
    }

    /// Lets an identifier go, which will never be granted by all of its participants. It takes no memory.
    pub fn let_go(&mut self, id: TxId)
        ensures { (other : Identifier) → waits_of self.new other
            ≡ (if is_same id other then None else waits_of self.old other) }
    {
        if let Some(at) = find(&self.doubts, id) {
            take(&mut self.doubts, id, at);
        }
    }
}
