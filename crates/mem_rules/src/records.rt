ghost use Rattle.std.specs.Prelude.{◌≡◌, ◌↔◌, ◌≢◌, ◌≤◌, [], None, not, filter, map, length, take, IfOk, IsTrue};
ghost use Rattle.std.specs.Option.{option_copied};
ghost use Rattle.mem_rules.specs.Good.{AreAscending};
ghost use Rattle.mem_rules.specs.Identifiers.{is_same};
ghost use Rattle.mem_rules.specs.Index.{ranges_kept};
ghost use Rattle.mem_rules.specs.Records.{IsPlaceOf, records_in, unboxed, HasRecordRoom};
ghost use Rattle.mem_rules.specs.Rules.{named};
ghost use Rattle.mem_rules.specs.State.{kept_of, placed_in, decided, writes_kept};

use crate::kept::Kept;
use lock_table::{are_equal, is_before};
use mini_tx::{KeptId, KeptIds, NoMemory, Numbers, Range, TxId, Writes};
use std::alloc::Global;

/// The kept records, in ascending order of their identifiers. Each lies in a place of its own, so that one that comes
/// before others moves no more than a word for each of them.
#[derive(Drop)]
pub(crate) struct Records(Vec<Box<Kept>>);

impl Records {
    /// None.
    pub(crate) fn new(alloc: Global) -> Records
        ensures { records_in result ≡ [] }
    {
        Records(Vec::new(alloc))
    }

    /// Whether there is none.
    pub(crate) fn is_empty(&self) -> bool
        ensures { IsTrue result ↔ (records_in self.now ≡ []) }
    {
        self.0.is_empty()
    }

    /// Takes the memory for one more.
    pub(crate) fn reserve(&mut self) -> Result<(), NoMemory>
        ensures room { IfOk result (λ done. HasRecordRoom self.new) }
        ensures same { records_in self.new ≡ records_in self.old }
    {
        self.0.reserve(1)?;
        Ok(())
    }

    /// The kept record of an identifier.
    pub(crate) fn get(&self, id: TxId) -> Option<&Kept>
        requires { AreAscending (records_in self.now) }
        ensures { option_copied result ≡ kept_of (records_in self.now) id }
    {
        record_of(self.0.as_slice(), id)
    }

    /// The ranges of the record of an identifier; none where none is kept.
    pub(crate) fn ranges_of(&self, id: TxId) -> &[Range]
        requires { AreAscending (records_in self.now) }
        ensures { result.now ≡ ranges_kept (kept_of (records_in self.now) id) }
    {
        match self.get(id) {
            Some(record) => record.ranges.as_slice(),
            None => &[],
        }
    }

    /// Puts a record in its place. There is room for it.
    pub(crate) fn keep(&mut self, record: Box<Kept>)
        requires ascending { AreAscending (records_in self.old) }
        requires room { HasRecordRoom self.old }
        ensures { records_in self.new ≡ placed_in «record».value (records_in self.old) }
    {
        let at = place_of(self.0.as_slice(), record.id);
        let inserted = self.0.insert(at, record);
        inserted.unwrap();
    }

    /// Decides the record of an identifier, and gives its writes.
    pub(crate) fn decide(&mut self, alloc: Global, id: TxId, commit: bool) -> Writes
        requires ascending { AreAscending (records_in self.old) }
        requires known { kept_of (records_in self.old) id ≢ None }
        ensures decided { records_in self.new ≡ map (decided id commit) (records_in self.old) }
        ensures writes { result ≡ writes_kept (kept_of (records_in self.old) id) }
    {
        let at = place_of(self.0.as_slice(), id);
        self.0[at].decide(alloc, commit)
    }

    /// Drops the record of an identifier.
    pub(crate) fn forget(&mut self, id: TxId)
        requires ascending { AreAscending (records_in self.old) }
        requires known { kept_of (records_in self.old) id ≢ None }
        ensures { records_in self.new ≡ filter (λ k. not (is_same k.id id)) (records_in self.old) }
    {
        let at = place_of(self.0.as_slice(), id);
        self.0.remove(at);
    }

    /// The identifiers of the first records, at most so many, with their participants.
    pub(crate) fn named(&self, alloc: Global, limit: usize) -> Result<KeptIds, NoMemory>
        ensures { IfOk result (λ ids. ids ≡ map named (take limit (records_in self.now))) }
    {
        named(alloc, first(self.0.as_slice(), limit))
    }
}

// How many records come before an identifier.
fn place_of(kept: &[Box<Kept>], id: TxId) -> usize
    requires { AreAscending (unboxed kept.now) }
    ensures place { IsPlaceOf (unboxed kept.now) id result }
    ensures bound { result ≤ length (unboxed kept.now) }
{
    kept.partition_point(|record| is_before(record.id, id))
}

// The record of an identifier.
fn record_of(kept: &[Box<Kept>], id: TxId) -> Option<&Kept>
    requires { AreAscending (unboxed kept.now) }
    ensures { option_copied result ≡ kept_of (unboxed kept.now) id }
{
    let at = place_of(kept, id);
    if at == kept.len() {
        return None;
    }
    let record: &Kept = &kept[at];
    if are_equal(record.id, id) {
        Some(record)
    } else {
        None
    }
}

// The identifiers of records, with their participants.
fn named(alloc: Global, kept: &[Box<Kept>]) -> Result<KeptIds, NoMemory>
    ensures { IfOk result (λ ids. ids ≡ map named (unboxed kept.now)) }
{
    let mut ids = KeptIds::new(alloc);
    for record in kept {
        ids.push(KeptId {
            id: record.id,
            participants: Numbers::from_slice(alloc, record.participants.as_slice())?,
        })?;
    }
    Ok(ids)
}

// The first records, at most so many.
fn first(kept: &[Box<Kept>], limit: usize) -> &[Box<Kept>]
    ensures { unboxed result.now ≡ take limit (unboxed kept.now) }
{
    &kept[..kept.len().min(limit)]
}
