ghost use Rattle.std.specs.Prelude.{◌≡◌};
ghost use Rattle.tx_coord.specs.State.{Machine, phase_of, shown};

use crate::decisions::{decided, decides_again, forgets};
use crate::done::{drop_through, note_all};
use crate::finishing::Finishing;
use crate::outgoing::Outbox;
use crate::participants::prepares;
use crate::progress::Progress;
use crate::running::Running;
use crate::tx_state::TxState;
use crate::votes::{counted, counts};
use mini_tx::{Message, Mini, NoMemory, TxId, Vote};
use sfs_base::Seq;
use std::alloc::Global;
use std::marker::Model;

/// A coordinator of minitransactions, since its start with a boot number. It runs one at a time. A contract
/// sees what it has (`specs/State.antt`), and whether memory ran out in a call.
#[derive(Debug, Drop)]
pub struct Coordinator {
    alloc: Global,
    coord: u32,
    boot: u64,
    begun: u64,
    state: TxState,
    running: Option<Running>,
    finishing: Vec<Finishing>,
    spent: bool,
}

impl Model for Coordinator {
    ghost Value = { Machine };

    ghost view = { λ c. record {
      state = record { coord = c.coord; boot = c.boot; begun = c.begun; phase = phase_of c.running c.state; finishing = c.finishing.items };
      is_spent = c.spent;
    } };

    ghost invariant = { λ c. c.state ≡ shown (phase_of c.running c.state) };
}

impl Coordinator {
    ghost use Rattle.std.specs.Prelude.{◌+◌, ◌<◌, ◌^◌, true, false, IfOk, OnOk, OnErr};
    ghost use Rattle.tx_coord.specs.State.{Free, Runs, started};
    ghost use Rattle.tx_coord.specs.Rules.{after_vote, begun, cleared, given_up, heard, next_id, on_done, on_vote, prepares as prepares_of, quiet, resent};
    ghost use Rattle.tx_coord.specs.Calls.{Makes};

    /// The coordinator of this number at its start with this boot number. It takes no memory.
    pub fn new(alloc: Global, coord: u32, boot: u64) -> Coordinator
        ensures { result ≡ record { state = started coord boot; is_spent = false } }
    {
        Coordinator {
            alloc,
            coord,
            boot,
            begun: 0,
            state: TxState::Idle,
            running: None,
            finishing: Vec::new(alloc),
            spent: false,
        }
    }

    /// What it is at. It takes no memory.
    pub fn state(&self) -> &TxState
        ensures { result.now ≡ shown self.now.state.phase }
    {
        &self.state
    }

    /// Begins a minitransaction, and posts `prepare` to its participants, ascending. It must be idle, and
    /// fewer than 2^62 may have begun since the start. [`NoMemory`]: memory ran out, now or in an earlier
    /// call, and this and every further call that can say so does.
    #[tactic(auto, using(crate::proofs::ParticipantLemmas::all_missing))]
    pub fn begin(&mut self, mini: Mini) -> Result<Outbox, NoMemory>
        requires idle { self.old.state.phase ≡ Free }
        requires few { self.old.state.begun < 2 ^ 62 }
        ensures exact { IfOk result (λ posts. Makes (begun self.old.state mini) self.old self.new posts) }
        ensures spent { OnErr result (self.new.is_spent ≡ true) }
    {
        if self.spent {
            return Err(NoMemory);
        }
        self.spent = true;
        let id = self.next();
        let running = Running {
            id,
            mini,
            grants: Seq::new(self.alloc),
        };
        let posts = prepares(self.alloc, &running)?;
        self.begun += 1;
        self.state = TxState::Running(id);
        self.running = Some(running);
        self.spent = false;
        Ok(posts)
    }

    /// Hears a message of the memory node `from`. The first vote of each participant that names what runs and
    /// fits it counts: with those of all of them it is committed, and at the first that is not Granted it
    /// ends with that vote; with several participants all of them are then told, ascending. `done` is noted,
    /// and an identifier with which all participants are through is forgotten everywhere. All else is
    /// ignored. [`NoMemory`]: memory ran out, now or in an earlier call.
    pub fn hear(&mut self, from: u32, message: &Message) -> Result<Outbox, NoMemory>
        ensures exact { IfOk result (λ posts. Makes (heard self.old.state from message.now) self.old self.new posts) }
        ensures spent { OnErr result (self.new.is_spent ≡ true) }
    {
        match message {
            Message::Voted { id, vote } => self.hear_vote(from, *id, vote),
            Message::Done { id } => self.hear_done(from, *id),
            Message::Prepare { .. }
            | Message::Decide { .. }
            | Message::Forget { .. }
            | Message::List
            | Message::Kept { .. }
            | Message::Ask { .. }
            | Message::Answer { .. }
            | Message::Hold { .. }
            | Message::Held { .. }
            | Message::Release { .. }
            | Message::Drop { .. }
            | Message::ReadCut { .. }
            | Message::Piece { .. } => self.ignore(),
        }
    }

    /// Posts `prepare` again to the participants whose vote is missing, and then each decision, oldest
    /// first, to those whose `done` is missing. [`NoMemory`]: memory ran out, now or in an earlier call.
    pub fn resend(&self) -> Result<Outbox, NoMemory>
        ensures exact { IfOk result (λ posts. posts ≡ resent self.now.state) }
        ensures live { IfOk result (λ posts. self.now.is_spent ≡ false) }
    {
        if self.spent {
            return Err(NoMemory);
        }
        let mut posts = self.prepares_again()?;
        posts.append(decides_again(self.alloc, self.finishing.as_slice())?)?;
        Ok(posts)
    }

    /// Gives up what runs: its outcome is unknown, and nothing is posted. It takes no memory.
    pub fn give_up(&mut self)
        ensures { self.new ≡ record self.old { state = given_up self.old.state } }
    {
        if self.running.is_some() {
            self.state = TxState::Idle;
            self.running = None;
        }
    }

    /// Lets the outcome of the last one go, so that it is idle. It takes no memory.
    pub fn clear(&mut self)
        ensures { self.new ≡ record self.old { state = cleared self.old.state } }
    {
        if let TxState::Done(_) = &self.state {
            self.state = TxState::Idle;
        }
    }

    // Hears a vote.
    fn hear_vote(&mut self, from: u32, id: TxId, vote: &Vote) -> Result<Outbox, NoMemory>
        ensures exact { IfOk result (λ posts. Makes (on_vote self.old.state from id vote.now self.old.state.phase) self.old self.new posts) }
        ensures spent { OnErr result (self.new.is_spent ≡ true) }
    {
        if self.spent {
            return Err(NoMemory);
        }
        let Some(running) = self.running.take() else {
            return Ok(Seq::new(self.alloc));
        };
        if !counts(&running, from, id, vote) {
            self.running = Some(running);
            return Ok(Seq::new(self.alloc));
        }
        self.state = TxState::Idle;
        self.spent = true;
        let progress = counted(self.alloc, running, from, vote)?;
        let posts = self.proceed(progress)?;
        self.spent = false;
        Ok(posts)
    }

    // Goes on with what runs, or ends with its outcome.
    fn proceed(&mut self, progress: Progress) -> Result<Outbox, NoMemory>
        requires idle { self.old.state.phase ≡ Free }
        ensures posts { IfOk result (λ posts. posts ≡ (after_vote self.old.state progress).posts) }
        ensures now { OnOk result (self.new ≡ record self.old { state = (after_vote self.old.state progress).now }) }
        ensures same { self.new.is_spent ≡ self.old.is_spent }
    {
        match progress {
            Progress::Waits(running) => {
                self.state = TxState::Running(running.id);
                self.running = Some(running);
                Ok(Seq::new(self.alloc))
            }
            Progress::Ends(ending) => {
                let posts = decided(self.alloc, &mut self.finishing, &ending)?;
                self.state = TxState::Done(ending.outcome);
                Ok(posts)
            }
        }
    }

    // Hears what is for others.
    fn ignore(&self) -> Result<Outbox, NoMemory>
        ensures exact { IfOk result (λ posts. Makes (quiet self.now.state) self.now self.now posts) }
        ensures spent { OnErr result (self.now.is_spent ≡ true) }
    {
        if self.spent {
            return Err(NoMemory);
        }
        Ok(Seq::new(self.alloc))
    }

    // Hears `done`.
    fn hear_done(&mut self, from: u32, id: TxId) -> Result<Outbox, NoMemory>
        ensures exact { IfOk result (λ posts. Makes (on_done self.old.state from id) self.old self.new posts) }
        ensures spent { OnErr result (self.new.is_spent ≡ true) }
    {
        if self.spent {
            return Err(NoMemory);
        }
        self.spent = true;
        note_all(self.alloc, &mut self.finishing, from, id);
        let posts = forgets(self.alloc, self.finishing.as_slice())?;
        drop_through(&mut self.finishing);
        self.spent = false;
        Ok(posts)
    }

    // The identifier of the next minitransaction.
    fn next(&self) -> TxId
        requires { self.now.state.begun < 2 ^ 62 }
        ensures { result ≡ next_id self.now.state }
    {
        TxId {
            coord: self.coord,
            boot: self.boot,
            seq: self.begun + 1,
        }
    }

    // The `prepare` of what runs, for each participant whose vote is missing.
    fn prepares_again(&self) -> Result<Outbox, NoMemory>
        ensures { IfOk result (λ posts. posts ≡ prepares_of self.now.state.phase) }
    {
        match &self.running {
            Some(running) => prepares(self.alloc, running),
            None => Ok(Seq::new(self.alloc)),
        }
    }
}
