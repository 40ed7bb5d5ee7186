ghost use Rattle.std.specs.Prelude.{◌≡◌, ◌<◌, map, IfOk};
ghost use Rattle.mem_rules.specs.Fit.{IsFitMessage, IsFitPrepare, IsOfTransactions, AreInside, size_of};
ghost use Rattle.mem_rules.specs.Memory.{state_of, setup_in, node_of, IsReaction};
ghost use Rattle.mem_rules.specs.Rules.{react, on_prepare, on_decide, on_forget, on_ask, on_list, forces, standing, rule_for, rule_above, is_above, is_granted_at, least_holder};
ghost use Rattle.mem_rules.specs.Items.{range_of};
ghost use Rattle.mem_rules.specs.State.{kept_of};

use crate::items::{difference, ranges};
use crate::memory::Memory;
use crate::reaction::Reaction;
use crate::rule::Rule;
use crate::standing::{Standing, is_above, vote_at};
use crate::votes::{copied, entry_of, is_logged};
use mini_tx::{Entry, Message, NoMemory, PlacedItem, TxId, Vote};

/// How many kept identifiers an answer to `list` names at most.
const MAX_LISTED: usize = 64;

impl Memory {
    /// What the memory node does with a message (`docs/PROMISES.md`, "A memory node"). A message that is for
    /// another actor changes nothing and has no answer. The message is fit and is none about cuts.
    /// [`NoMemory`]: there is no memory for the entry or the answer.
    pub fn react(&self, message: &Message) -> Result<Reaction, NoMemory>
        requires fit { IsFitMessage (setup_in self.now) message.now }
        requires built { IsOfTransactions message.now }
        ensures { IfOk result (λ reaction. IsReaction reaction (react (node_of self.now) message.now)) }
    {
        match message {
            Message::Prepare {
                id,
                participants,
                items,
            } => self.on_prepare(*id, participants.as_slice(), items.as_slice()),
            Message::Decide { id, commit } => Ok(self.on_decide(*id, *commit)),
            Message::Forget { id } => Ok(self.on_forget(*id)),
            Message::Ask { id } => Ok(self.on_ask(*id)),
            Message::List => self.on_list(),
            _ => Ok(Reaction::none()),
        }
    }

    /// It votes.
    fn on_prepare(
        &self,
        id: TxId,
        participants: &[u32],
        items: &[PlacedItem],
    ) -> Result<Reaction, NoMemory>
        requires { IsFitPrepare (setup_in self.now) id participants.now items.now }
        ensures { IfOk result (λ reaction. IsReaction reaction (on_prepare (node_of self.now) id participants.now items.now)) }
    {
        let rule = self.rule_for(id, items)?;
        let is_new = rule.is_new();
        let vote = rule.vote(self.alloc, &self.image, items)?;
        if !is_new || !is_logged(participants, items) {
            return Ok(Reaction::answer(Message::Voted { id, vote }));
        }
        let entry = entry_of(self.alloc, id, participants, items, copied(&vote)?)?;
        Ok(Reaction::append(entry, Message::Voted { id, vote }))
    }

    /// The rule by which an identifier with these items is voted on.
    fn rule_for(&self, id: TxId, items: &[PlacedItem]) -> Result<Rule, NoMemory>
        requires known { id.coord < (setup_in self.now).geometry.nodes }
        requires inside { AreInside (size_of (setup_in self.now)) items.now }
        ensures { IfOk result (λ rule. rule ≡ rule_for (node_of self.now) id items.now) }
    {
        if let Some(record) = self.kept.get(id) {
            return Ok(Rule::RecordAgain(copied(&record.vote)?));
        }
        match Standing::of(self.floors[id.coord as usize].as_ref(), id)? {
            Standing::Above => self.rule_above(items),
            Standing::At(vote) => Ok(Rule::FloorAgain(vote)),
            Standing::Below(floor) => Ok(Rule::ForcedBy(floor)),
        }
    }

    /// The rule where the identifier is above the floor.
    fn rule_above(&self, items: &[PlacedItem]) -> Result<Rule, NoMemory>
        requires { AreInside (size_of (setup_in self.now)) items.now }
        ensures { IfOk result (λ rule. rule ≡ rule_above (node_of self.now) items.now) }
    {
        if let Some(holder) = self.least_holder(items)? {
            return Ok(Rule::LockedBy(holder));
        }
        match difference(self.alloc, &self.image, items)? {
            Some(difference) => Ok(Rule::MismatchAt(difference)),
            None => Ok(Rule::Passes),
        }
    }

    /// The least identifier that locks a byte of these items. Without records there are no locks.
    fn least_holder(&self, items: &[PlacedItem]) -> Result<Option<TxId>, NoMemory>
        requires { AreInside (size_of (setup_in self.now)) items.now }
        ensures { IfOk result (λ holder. holder ≡ least_holder (state_of self.now) (map range_of items.now)) }
    {
        if self.kept.is_empty() {
            return Ok(None);
        }
        let ranges = ranges(self.alloc, items)?;
        Ok(self.least_blocking(ranges.as_slice()))
    }

    /// It hears what was decided.
    fn on_decide(&self, id: TxId, commit: bool) -> Reaction
        requires { id.coord < (setup_in self.now).geometry.nodes }
        ensures { IsReaction result (on_decide (node_of self.now) id commit (kept_of (state_of self.now).kept id)) }
    {
        match self.kept.get(id) {
            Some(record) => {
                if record.is_undecided() {
                    Reaction::append(Entry::Decided { id, commit }, Message::Done { id })
                } else {
                    Reaction::answer(Message::Done { id })
                }
            }
            None => {
                if commit {
                    Reaction::answer(Message::Done { id })
                } else {
                    self.forces(id, Message::Done { id })
                }
            }
        }
    }

    /// An identifier above the floor is forced to abort before a message is sent.
    fn forces(&self, id: TxId, message: Message) -> Reaction
        requires { id.coord < (setup_in self.now).geometry.nodes }
        ensures { IsReaction result (forces (node_of self.now) id (standing (state_of self.now) id) message) }
    {
        if self.is_above(id) {
            let vote = Vote::Forced { floor: id };
            Reaction::append(Entry::Refused { id, vote }, message)
        } else {
            Reaction::answer(message)
        }
    }

    /// Whether an identifier stands above the floor of its coordinator.
    fn is_above(&self, id: TxId) -> bool
        requires { id.coord < (setup_in self.now).geometry.nodes }
        ensures { result ≡ is_above (standing (state_of self.now) id) }
    {
        is_above(self.floors[id.coord as usize].as_ref(), id)
    }

    /// It may let a record go.
    fn on_forget(&self, id: TxId) -> Reaction
        ensures { IsReaction result (on_forget (node_of self.now) id (kept_of (state_of self.now).kept id)) }
    {
        match self.kept.get(id) {
            Some(record) => {
                if record.is_undecided() {
                    Reaction::none()
                } else {
                    Reaction {
                        entry: Some(Entry::Forgotten { id }),
                        answer: None,
                    }
                }
            }
            None => Reaction::none(),
        }
    }

    /// It tells whether it granted.
    fn on_ask(&self, id: TxId) -> Reaction
        requires { id.coord < (setup_in self.now).geometry.nodes }
        ensures { IsReaction result (on_ask (node_of self.now) id (kept_of (state_of self.now).kept id)) }
    {
        if self.kept.get(id).is_some() {
            Reaction::answer(Message::Answer { id, ok: true })
        } else if self.is_above(id) {
            self.forces(id, Message::Answer { id, ok: false })
        } else {
            let ok = self.is_granted_floor(id);
            Reaction::answer(Message::Answer { id, ok })
        }
    }

    /// Whether the floor is this identifier, and its vote is granted.
    fn is_granted_floor(&self, id: TxId) -> bool
        requires { id.coord < (setup_in self.now).geometry.nodes }
        ensures { result ≡ is_granted_at (standing (state_of self.now) id) }
    {
        match vote_at(self.floors[id.coord as usize].as_ref(), id) {
            Some(vote) => vote.is_granted(),
            None => false,
        }
    }

    /// It names the least records that it keeps.
    fn on_list(&self) -> Result<Reaction, NoMemory>
        ensures { IfOk result (λ reaction. IsReaction reaction (on_list (node_of self.now))) }
    {
        let ids = self.kept.named(self.alloc, MAX_LISTED)?;
        Ok(Reaction::answer(Message::Kept { ids, cut: None }))
    }
}
