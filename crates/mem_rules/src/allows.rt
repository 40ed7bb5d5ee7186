ghost use Rattle.std.specs.Prelude.{◌≡◌, ◌↔◌, ◌<◌, ◌^◌, length, All, IsTrue};
ghost use Rattle.mem_rules.specs.Fit.{IsFit, IsFitPrepared, IsKeptAs, IsRangeInside, IsWriteInside, IsCovered, AreThere};
ghost use Rattle.mem_rules.specs.Memory.{state_of, setup_in};
ghost use Rattle.mem_rules.specs.State.{kept_of};

use crate::fits::{are_below, are_covered, lie_inside, ranges_lie_inside};
use crate::memory::Memory;
use mini_tx::{Entry, Range, TxId, WriteAt};

impl Memory {
    /// Whether the log may have this entry behind those that were taken.
    pub fn allows(&self, entry: &Entry) -> bool
        ensures { IsTrue result ↔ IsFit (setup_in self.now) (state_of self.now) entry.now }
    {
        match entry {
            Entry::Single { id, writes, .. } => self.has_coordinator(*id)
                && lie_inside(self.image.len(), writes.as_slice()),
            Entry::Prepared {
                id,
                participants,
                ranges,
                writes,
                ..
            } => self.allows_record(
                *id,
                participants.as_slice(),
                ranges.as_slice(),
                writes.as_slice(),
            ),
            Entry::Refused { id, .. } | Entry::Floor { id, .. } => self.has_coordinator(*id),
            Entry::Decided { id, .. } => self.has_coordinator(*id) && self.keeps(*id, true),
            Entry::Forgotten { id } => self.has_coordinator(*id) && self.keeps(*id, false),
            Entry::Cut { .. } => true,
        }
    }

    /// Whether the coordinator of an identifier is one of the cluster.
    fn has_coordinator(&self, id: TxId) -> bool
        ensures { IsTrue result ↔ (id.coord < (setup_in self.now).geometry.nodes) }
    {
        id.coord < self.setup.geometry.nodes
    }

    /// Whether the record of an identifier is kept, and whether it is undecided is this.
    fn keeps(&self, id: TxId, undecided: bool) -> bool
        ensures { IsTrue result ↔ IsKeptAs undecided (kept_of (state_of self.now).kept id) }
    {
        match self.kept.get(id) {
            Some(record) => record.is_undecided() == undecided,
            None => false,
        }
    }

    /// Whether a record may be kept.
    fn allows_record(
        &self,
        id: TxId,
        participants: &[u32],
        ranges: &[Range],
        writes: &[WriteAt],
    ) -> bool
        ensures { IsTrue result ↔ IsFitPrepared (setup_in self.now) (state_of self.now) id participants.now ranges.now writes.now }
    {
        self.has_coordinator(id)
            && self.are_there(participants)
            && are_in_place(self.image.len(), ranges, writes)
            && !self.are_locked(ranges)
            && self.kept.get(id).is_none()
    }

    /// Whether the participants are of the cluster, with this memory node among them.
    fn are_there(&self, participants: &[u32]) -> bool
        ensures { IsTrue result ↔ AreThere (setup_in self.now) participants.now }
    {
        are_below(self.setup.geometry.memories, participants)
            && participants.contains(&self.setup.index)
    }
}

/// Whether ranges and writes lie inside an image of this size, and the writes inside the ranges.
fn are_in_place(size: usize, ranges: &[Range], writes: &[WriteAt]) -> bool
    requires { size < 2 ^ 32 }
    ensures { IsTrue result ↔ (All (IsRangeInside size) ranges.now × All (IsWriteInside size) writes.now × All (IsCovered ranges.now) writes.now) }
{
    ranges_lie_inside(size, ranges) && lie_inside(size, writes) && are_covered(ranges, writes)
}
