ghost use Rattle.std.specs.Prelude.{◌≡◌, length, IfOk};
ghost use Rattle.mem_rules.specs.Fit.{AreInside};
ghost use Rattle.mem_rules.specs.Rules.{is_new, vote_by};

use crate::difference::Difference;
use crate::image::Image;
use crate::items::reads;
use mini_tx::{CutId, NoMemory, PlacedItem, TxId, Vote};
use std::alloc::Global;

/// The rule by which a memory node votes (`docs/PROMISES.md`, "A memory node"). The first that fits
/// decides, in this order.
#[derive(Drop)]
pub enum Rule {
    /// The record of the identifier is kept: its vote again.
    RecordAgain(Vote),
    /// The floor is the identifier: its vote again.
    FloorAgain(Vote),
    /// The identifier is below this floor: Forced.
    ForcedBy(TxId),
    /// This cut is held: Held.
    HeldBy(CutId),
    /// This is the least identifier that locks a byte of an item: Locked.
    LockedBy(TxId),
    /// This is the first compare item that differs: Mismatch.
    MismatchAt(Difference),
    /// None of these fits: Granted.
    Passes,
}

impl Rule {
    /// Whether its vote is a new one.
    pub(crate) fn is_new(&self) -> bool
        ensures { result ≡ is_new self.now }
    {
        match self {
            Rule::RecordAgain(_) | Rule::FloorAgain(_) | Rule::ForcedBy(_) => false,
            Rule::HeldBy(_) | Rule::LockedBy(_) | Rule::MismatchAt(_) | Rule::Passes => true,
        }
    }

    /// Its vote.
    pub(crate) fn vote(
        self,
        alloc: Global,
        image: &Image,
        items: &[PlacedItem],
    ) -> Result<Vote, NoMemory>
        requires { AreInside (length image.now) items.now }
        ensures { IfOk result (λ vote. vote ≡ vote_by image.now items.now self) }
    {
        match self {
            Rule::RecordAgain(vote) | Rule::FloorAgain(vote) => Ok(vote),
            Rule::ForcedBy(floor) => Ok(Vote::Forced { floor }),
            Rule::HeldBy(cut) => Ok(Vote::Held { cut }),
            Rule::LockedBy(holder) => Ok(Vote::Locked { holder }),
            Rule::MismatchAt(Difference { place, kept }) => Ok(Vote::Mismatch {
                item: place,
                kept,
            }),
            Rule::Passes => Ok(Vote::Granted(reads(alloc, image, items)?)),
        }
    }
}
