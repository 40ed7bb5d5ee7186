ghost use Rattle.std.specs.Prelude.{◌≡◌, ◌∷◌, [], IfOk};
ghost use Rattle.tx_recover.specs.Rules.{drops as drops_of, is_running as is_same_as};
ghost use Rattle.tx_recover.specs.State.{Machine};

use crate::notice::Notice;
use crate::tasks::{again_all, answer_all, drop_through, forgets, note_all, place, takes_up};
use crate::work::Work;
use mini_tx::{CutId, KeptId, KeptIds, Message, NoMemory, TxId};
use sfs_base::Seq;
use std::alloc::Global;
use std::marker::Model;
use tx_coord::{Outbox, Outgoing};

/// The manager's recovery of orphans, since its start. A contract sees what is at work, in ascending order, and
/// whether memory ran out in a call (`specs/State.antt`).
#[derive(Debug, Drop)]
pub struct Recoverer {
    alloc: Global,
    works: Vec<Work>,
    spent: bool,
}

impl Model for Recoverer {
    ghost Value = { Machine };

    ghost view = { λ r. record { works = r.works.items; is_spent = r.spent } };
}

impl Recoverer {
    ghost use Rattle.std.specs.Prelude.{map, true, false, OnOk, OnErr};
    ghost use Rattle.tx_recover.specs.Rules.{heard, list, on_answer, on_done, on_kept, placed_in, quiet, resent, taken_up, told, with_all};
    ghost use Rattle.tx_recover.specs.Calls.{Makes};
    ghost use Rattle.tx_recover.specs.declared.notice.Notice.TheVariants.{Ask};

    /// The recoverer at its start: nothing is at work. It takes no memory.
    pub fn new(alloc: Global) -> Recoverer
        ensures { result ≡ record { works = []; is_spent = false } }
    {
        Recoverer {
            alloc,
            works: Vec::new(alloc),
            spent: false,
        }
    }

    /// Asks a memory node for the records that it keeps. [`NoMemory`]: memory ran out, now or in an earlier
    /// call, and this and every further call that can say so does.
    pub fn sweep(&mut self, memory: u32) -> Result<Outbox, NoMemory>
        ensures exact { IfOk result (λ posts. Makes (record { now = self.old.works; posts = list memory ∷ [] }) self.old self.new posts) }
        ensures spent { OnErr result (self.new.is_spent ≡ true) }
    {
        if self.spent {
            return Err(NoMemory);
        }
        self.spent = true;
        let posts = one(self.alloc, memory, Message::List)?;
        self.spent = false;
        Ok(posts)
    }

    /// Hears a message of the memory node `from`, while the backup of the cut `running` runs, if one does. Each
    /// identifier that `kept` names is taken up, and its participants are asked, where it is not at work and
    /// fewer than [`MAX_AT_WORK`](crate::MAX_AT_WORK) are; and the memory node is told to drop a cut that it
    /// holds and that is not the running one. Answers decide an identifier: commit where all participants
    /// answered ok, abort at the first of a participant that did not. `done` is noted after the decision, and
    /// an identifier with which all participants are through is forgotten everywhere. All else is ignored.
    /// [`NoMemory`]: memory ran out, now or in an earlier call.
    pub fn hear(
        &mut self,
        from: u32,
        message: &Message,
        running: Option<CutId>,
    ) -> Result<Outbox, NoMemory>
        ensures exact { IfOk result (λ posts. Makes (heard self.old.works from message.now running) self.old self.new posts) }
        ensures spent { OnErr result (self.new.is_spent ≡ true) }
    {
        match message {
            Message::Kept { ids, cut } => self.hear_kept(from, ids, *cut, running),
            Message::Answer { id, ok } => self.hear_answer(from, *id, *ok),
            Message::Done { id } => self.hear_done(from, *id),
            Message::Prepare { .. }
            | Message::Voted { .. }
            | Message::Decide { .. }
            | Message::Forget { .. }
            | Message::List
            | Message::Ask { .. }
            | Message::Hold { .. }
            | Message::Held { .. }
            | Message::Release { .. }
            | Message::Drop { .. }
            | Message::ReadCut { .. }
            | Message::Piece { .. } => self.ignore(),
        }
    }

    /// For each identifier at work, ascending, posts `ask` again to the participants whose answer is missing,
    /// or after the decision `decide` again to those whose `done` is missing. [`NoMemory`]: memory ran out,
    /// now or in an earlier call.
    pub fn resend(&self) -> Result<Outbox, NoMemory>
        ensures exact { IfOk result (λ posts. posts ≡ resent self.now.works) }
        ensures live { IfOk result (λ posts. self.now.is_spent ≡ false) }
    {
        if self.spent {
            return Err(NoMemory);
        }
        again_all(self.alloc, self.works.as_slice())
    }

    // Hears which records a memory node keeps, and which cut it holds.
    fn hear_kept(
        &mut self,
        from: u32,
        ids: &KeptIds,
        cut: Option<CutId>,
        running: Option<CutId>,
    ) -> Result<Outbox, NoMemory>
        ensures exact { IfOk result (λ posts. Makes (on_kept self.old.works from ids.now cut running) self.old self.new posts) }
        ensures spent { OnErr result (self.new.is_spent ≡ true) }
    {
        if self.spent {
            return Err(NoMemory);
        }
        self.spent = true;
        let mut posts = self.take_up_all(ids.as_slice())?;
        posts.append(drops(self.alloc, from, cut, running)?)?;
        self.spent = false;
        Ok(posts)
    }

    // Takes up what is named, one after another.
    fn take_up_all(&mut self, ids: &[KeptId]) -> Result<Outbox, NoMemory>
        ensures now { OnOk result (self.new.works ≡ (with_all (quiet self.old.works) ids.now).now) }
        ensures posts { IfOk result (λ posts. posts ≡ (with_all (quiet self.old.works) ids.now).posts) }
        ensures same { self.new.is_spent ≡ self.old.is_spent }
    {
        let mut posts = Seq::new(self.alloc);
        for kept in ids {
            if takes_up(self.works.as_slice(), kept.id) {
                posts.append(self.take_up(kept)?)?;
            }
        }
        Ok(posts)
    }

    // Takes one up, and asks its participants.
    fn take_up(&mut self, kept: &KeptId) -> Result<Outbox, NoMemory>
        ensures now { OnOk result (self.new.works ≡ placed_in (taken_up kept.now) self.old.works) }
        ensures posts { IfOk result (λ posts. posts ≡ map (told (Ask kept.now.id)) kept.now.participants) }
        ensures same { self.new.is_spent ≡ self.old.is_spent }
    {
        let work = Work::taken_up(self.alloc, kept)?;
        place(&mut self.works, work)?;
        Notice::Ask(kept.id).to_all(self.alloc, kept.participants.as_slice())
    }

    // Hears whether a memory node voted for an identifier.
    fn hear_answer(&mut self, from: u32, id: TxId, ok: bool) -> Result<Outbox, NoMemory>
        ensures exact { IfOk result (λ posts. Makes (on_answer self.old.works from id ok) self.old self.new posts) }
        ensures spent { OnErr result (self.new.is_spent ≡ true) }
    {
        if self.spent {
            return Err(NoMemory);
        }
        self.spent = true;
        let posts = answer_all(self.alloc, &mut self.works, from, id, ok)?;
        self.spent = false;
        Ok(posts)
    }

    // Hears `done`.
    fn hear_done(&mut self, from: u32, id: TxId) -> Result<Outbox, NoMemory>
        ensures exact { IfOk result (λ posts. Makes (on_done self.old.works from id) self.old self.new posts) }
        ensures spent { OnErr result (self.new.is_spent ≡ true) }
    {
        if self.spent {
            return Err(NoMemory);
        }
        self.spent = true;
        note_all(self.alloc, &mut self.works, from, id);
        let posts = forgets(self.alloc, self.works.as_slice())?;
        drop_through(&mut self.works);
        self.spent = false;
        Ok(posts)
    }

    // Hears what is for others.
    fn ignore(&self) -> Result<Outbox, NoMemory>
        ensures exact { IfOk result (λ posts. Makes (quiet self.now.works) self.now self.now posts) }
        ensures spent { OnErr result (self.now.is_spent ≡ true) }
    {
        if self.spent {
            return Err(NoMemory);
        }
        Ok(Seq::new(self.alloc))
    }
}

/// One message for a memory node.
fn one(alloc: Global, memory: u32, message: Message) -> Result<Outbox, NoMemory>
    ensures { IfOk result (λ posts. posts ≡ record { memory = memory; message = message } ∷ []) }
{
    let mut posts = Seq::new(alloc);
    posts.push(Outgoing { memory, message })?;
    Ok(posts)
}

/// `drop` for a memory node of the cut that it holds, where that is not the running one.
fn drops(
    alloc: Global,
    memory: u32,
    cut: Option<CutId>,
    running: Option<CutId>,
) -> Result<Outbox, NoMemory>
    ensures { IfOk result (λ posts. posts ≡ drops_of memory cut running) }
{
    match cut {
        Some(cut) if !is_running(cut, running) => one(alloc, memory, Message::Drop { cut }),
        _ => Ok(Seq::new(alloc)),
    }
}

/// Whether a cut is the running one.
fn is_running(cut: CutId, running: Option<CutId>) -> bool
    ensures { result ≡ is_same_as cut running }
{
    match running {
        Some(running) => cut.is_same(running),
        None => false,
    }
}
