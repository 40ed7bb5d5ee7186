use grant_ledger::Ledger;
use mini_tx::TxId;
use sfs_base::NoMemory;
use std::alloc::Global;

/// What a cluster counts: the history of changes, and who has not granted yet what is in doubt.
#[derive(Debug, Drop)]
pub struct Book {
    pub(crate) committed: Vec<TxId>,
    pub(crate) ledger: Ledger,
}

impl Book {
    ghost use Rattle.std.specs.Prelude.{◌≡◌, ◌<◌, ◌++◌, [], ◌∷◌, None, Some, vec_len, vec_capacity, OnOk, OnErr};
    ghost use Rattle.mini_tx.specs.declared.tx_id.TxId.{TxId as Identifier};
    ghost use Rattle.cluster_laws.specs.Doubts.{points_of, waits_after, waits_without};
    ghost use Rattle.cluster_parts.specs.Books.{doubts_of, history_of};
    ghost use Rattle.std.specs.Prelude.{if◌then◌else◌};
    ghost use Rattle.mini_tx.specs.Order.{is_same};

    /// Nothing is counted yet. It takes no memory.
    pub fn new(alloc: Global) -> Book
        ensures history { history_of result ≡ [] }
        ensures doubts { (id : Identifier) → doubts_of result id ≡ None }
    {
        Book {
            committed: Vec::new(alloc),
            ledger: Ledger::new(alloc),
        }
    }

    /// The history, oldest first. It takes no memory.
    pub fn committed(&self) -> &[TxId]
        ensures { result.now ≡ history_of self.now }
    {
        self.committed.as_slice()
    }

    /// Takes the room for one more place in the history. [`NoMemory`]: there is none.
    pub fn reserve(&mut self) -> Result<(), NoMemory>
        ensures room { OnOk result (vec_len self.new.committed < vec_capacity self.new.committed) }
        ensures history { history_of self.new ≡ history_of self.old }
        ensures doubts { (id : Identifier) → doubts_of self.new id ≡ doubts_of self.old id }
    {
        self.committed.reserve(1)?;
        Ok(())
    }

    /// A change of these participants is begun. [`NoMemory`]: nothing is counted.
    pub fn begin(&mut self, id: TxId, participants: &[u32]) -> Result<(), NoMemory>
        requires { doubts_of self.old id ≡ None }
        ensures history { history_of self.new ≡ history_of self.old }
        ensures doubts { OnOk result ((other : Identifier) → doubts_of self.new other
            ≡ (if is_same id other then Some participants.now else doubts_of self.old other)) }
    {
        self.ledger.enter(id, participants)
    }

    /// A memory node has granted this, or nothing: where it is the last one, the change has its place in the
    /// history. There is room for it. It takes no memory.
    pub fn count(&mut self, granted: Option<TxId>, memory: u32)
        requires { vec_len self.old.committed < vec_capacity self.old.committed }
        ensures history { history_of self.new ≡ history_of self.old ++ points_of (doubts_of self.old) granted memory }
        ensures doubts { (other : Identifier) → doubts_of self.new other ≡ waits_after (doubts_of self.old) granted memory other }
    {
        if let Some(id) = granted {
            if self.ledger.grant(id, memory) {
                add(&mut self.committed, id);
            }
        }
    }

    /// An identifier was refused, and is in doubt no longer. It takes no memory.
    pub fn refuse(&mut self, id: TxId)
        ensures history { history_of self.new ≡ history_of self.old }
        ensures doubts { (other : Identifier) → doubts_of self.new other ≡ waits_without (doubts_of self.old) (id ∷ []) other }
    {
        self.ledger.let_go(id);
    }
}

ghost use Rattle.std.specs.Prelude.{◌≡◌, ◌<◌, ◌++◌, [], ◌∷◌, vec_len, vec_capacity};

/// Adds an identifier at the end. There is room for it.
fn add(committed: &mut Vec<TxId>, id: TxId)
    requires { vec_len committed.old < vec_capacity committed.old }
    ensures { committed.new.items ≡ committed.old.items ++ id ∷ [] }
{
    let added = committed.push(id);
    added.unwrap();
}
