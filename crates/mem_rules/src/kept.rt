ghost use Rattle.std.specs.Prelude.{◌≡◌, box_value};
ghost use Rattle.mem_rules.specs.Rules.{is_undecided};
ghost use Rattle.mem_rules.specs.State.{begun_with, filled_with, with_decision};

use mini_tx::{Numbers, Ranges, TxId, Vote, Writes};
use std::alloc::Global;
use std::mem;

/// The record of a granted vote of several participants, kept until it is forgotten. While it is not
/// decided its ranges are locked; then it has none, and no writes.
#[derive(Drop)]
pub struct Kept {
    pub id: TxId,
    pub participants: Numbers,
    pub vote: Vote,
    pub ranges: Ranges,
    pub writes: Writes,
    /// Whether it was committed, where it is decided.
    pub decision: Option<bool>,
}

impl Kept {
    /// The record of an identifier with this vote, which has nothing else yet.
    pub(crate) fn begun(alloc: Global, id: TxId, vote: Vote) -> Kept
        ensures { result ≡ begun_with id vote }
    {
        Kept {
            id,
            participants: Numbers::new(alloc),
            vote,
            ranges: Ranges::new(alloc),
            writes: Writes::new(alloc),
            decision: None,
        }
    }

    /// Gives it what its entry has beside its identifier and its vote.
    fn fill(&mut self, participants: Numbers, ranges: Ranges, writes: Writes)
        ensures { self.new ≡ filled_with participants ranges writes self.old }
    {
        self.participants = participants;
        self.ranges = ranges;
        self.writes = writes;
    }

    /// Whether it is not decided, so that its ranges are locked.
    pub(crate) fn is_undecided(&self) -> bool
        ensures { result ≡ is_undecided self.now }
    {
        self.decision.is_none()
    }

    /// Decides it, and gives its writes.
    pub(crate) fn decide(&mut self, alloc: Global, commit: bool) -> Writes
        ensures decided { self.new ≡ with_decision commit self.old }
        ensures writes { result ≡ self.old.writes }
    {
        self.decision = Some(commit);
        self.ranges = Ranges::new(alloc);
        mem::replace(&mut self.writes, Writes::new(alloc))
    }
}

/// The record in this place, with what its entry has beside its identifier and its vote.
pub(crate) fn filled(
    mut record: Box<Kept>,
    participants: Numbers,
    ranges: Ranges,
    writes: Writes,
) -> Box<Kept>
    ensures { box_value result ≡ filled_with participants ranges writes «record».value }
{
    record.fill(participants, ranges, writes);
    record
}
