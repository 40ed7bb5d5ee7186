ghost use Rattle.std.specs.Prelude.{◌≡◌, ◌==◌, ℕ, IfOk, OnOk};
ghost use Rattle.tx_recover.specs.Rules.{agreed, again, answered, awaits_answer, awaits_done, denied, decided, forgets, is_among as is_in, is_through as is_over, noted, taken_up, without as left_of};

use crate::notice::Notice;
use mini_tx::{KeptId, NoMemory, Numbers, TxId};
use sfs_base::Seq;
use std::alloc::Global;
use std::mem;
use tx_coord::Outbox;

/// The greatest number of identifiers at work at a time: further ones are passed over.
pub const MAX_AT_WORK: usize = 64;

/// An identifier at work.
#[derive(Debug, Drop)]
pub struct Work {
    pub id: TxId,
    /// Its participants, as the memory node named them that keeps its record.
    pub participants: Numbers,
    /// Those of them whose answer is missing; after the decision, whose `done` is missing.
    pub waits: Numbers,
    /// Whether it is committed, once that is decided.
    pub decision: Option<bool>,
}

impl Work {
    /// One of which nothing is known yet.
    pub(crate) fn taken_up(alloc: Global, kept: &KeptId) -> Result<Work, NoMemory>
        ensures { IfOk result (λ work. work ≡ taken_up kept.now) }
    {
        Ok(Work {
            id: kept.id,
            participants: Numbers::from_slice(alloc, kept.participants.as_slice())?,
            waits: Numbers::from_slice(alloc, kept.participants.as_slice())?,
            decision: None,
        })
    }

    /// Hears whether a memory node voted for an identifier, where this is it and it is not decided.
    pub(crate) fn answer(
        &mut self,
        alloc: Global,
        from: u32,
        id: TxId,
        ok: bool,
    ) -> Result<Outbox, NoMemory>
        ensures now { OnOk result (self.new ≡ (answered from id ok self.old).now) }
        ensures posts { IfOk result (λ posts. posts ≡ (answered from id ok self.old).posts) }
    {
        if !self.awaits_answer(id) {
            Ok(Seq::new(alloc))
        } else if ok {
            self.agree(alloc, from)
        } else {
            self.deny(alloc, from)
        }
    }

    // Whether it waits for answers about this identifier.
    fn awaits_answer(&self, id: TxId) -> bool
        ensures { result ≡ awaits_answer id self.now }
    {
        self.id.is_same(id) && self.decision.is_none()
    }

    // A memory node voted for it. Where no answer is missing, it is committed.
    fn agree(&mut self, alloc: Global, from: u32) -> Result<Outbox, NoMemory>
        ensures now { OnOk result (self.new ≡ (agreed from self.old).now) }
        ensures posts { IfOk result (λ posts. posts ≡ (agreed from self.old).posts) }
    {
        self.wait_without(alloc, from);
        if self.waits.is_empty() {
            self.decide(alloc, true)
        } else {
            Ok(Seq::new(alloc))
        }
    }

    // A memory node did not vote for it. Where it is a participant, it is aborted.
    fn deny(&mut self, alloc: Global, from: u32) -> Result<Outbox, NoMemory>
        ensures now { OnOk result (self.new ≡ (denied from self.old).now) }
        ensures posts { IfOk result (λ posts. posts ≡ (denied from self.old).posts) }
    {
        if is_among(from, self.participants.as_slice()) {
            self.decide(alloc, false)
        } else {
            Ok(Seq::new(alloc))
        }
    }

    // It is decided, and all participants are told.
    fn decide(&mut self, alloc: Global, commit: bool) -> Result<Outbox, NoMemory>
        ensures now { OnOk result (self.new ≡ (decided commit self.old).now) }
        ensures posts { IfOk result (λ posts. posts ≡ (decided commit self.old).posts) }
    {
        self.decision = Some(commit);
        self.waits = Numbers::from_slice(alloc, self.participants.as_slice())?;
        Notice::Decide(self.id, commit).to_all(alloc, self.participants.as_slice())
    }

    /// Hears that a memory node is through with an identifier, where this is it and it is decided.
    pub(crate) fn note(&mut self, alloc: Global, from: u32, id: TxId)
        ensures { self.new ≡ noted from id self.old }
    {
        if self.awaits_done(id) {
            self.wait_without(alloc, from);
        }
    }

    // Whether it waits for `done` of this identifier.
    fn awaits_done(&self, id: TxId) -> bool
        ensures { result ≡ awaits_done id self.now }
    {
        self.id.is_same(id) && self.decision.is_some()
    }

    // A memory node is waited for no longer.
    fn wait_without(&mut self, alloc: Global, from: u32)
        ensures { self.new ≡ record self.old { waits = left_of from self.old.waits } }
    {
        let waits = mem::replace(&mut self.waits, Seq::new(alloc));
        self.waits = without(waits, from);
    }

    /// Whether it is decided, and all participants are through with it.
    pub(crate) fn is_through(&self) -> bool
        ensures { result ≡ is_over self.now }
    {
        self.decision.is_some() && self.waits.is_empty()
    }

    /// `forget` for each participant.
    pub(crate) fn forget(&self, alloc: Global) -> Result<Outbox, NoMemory>
        ensures { IfOk result (λ posts. posts ≡ forgets self.now) }
    {
        Notice::Forget(self.id).to_all(alloc, self.participants.as_slice())
    }

    /// What those that are waited for were told last.
    pub(crate) fn again(&self, alloc: Global) -> Result<Outbox, NoMemory>
        ensures { IfOk result (λ posts. posts ≡ again self.now) }
    {
        let notice = match self.decision {
            Some(commit) => Notice::Decide(self.id, commit),
            None => Notice::Ask(self.id),
        };
        notice.to_all(alloc, self.waits.as_slice())
    }
}

/// These without one.
fn without(waits: Numbers, from: u32) -> Numbers
    ensures { result ≡ left_of from waits }
{
    let mut numbers = waits.into_vec();
    numbers.retain(|number| *number != from);
    Seq::from(numbers)
}

/// Whether a number is among these.
fn is_among(memory: u32, memories: &[u32]) -> bool
    ensures { result ≡ is_in memory memories.now }
{
    memories.iter().any(|other| *other == memory)
}
