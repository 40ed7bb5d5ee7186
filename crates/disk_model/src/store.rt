ghost use Rattle.std.specs.Prelude.{◌≡◌, ◌+◌, ◌^◌, ◌<◌, ℕ, [], ◌∷◌, ◌++◌, length, if◌then◌else◌, IfOk, OnOk, OnErr};
ghost use Rattle.disk_model.specs.Crash.{Holds, is_pending};
ghost use Rattle.disk_model.specs.Frames.{bytes_of};
ghost use Rattle.disk_model.specs.Store.{IsStore, undone, image_by, ranges_of};

use crate::change::Change;
use crate::choice::Choice;
use crate::frames::Frames;
use crate::overwritten::Overwritten;
use sfs_base::{Bytes, NoMemory};
use std::alloc::Global;

/// The content of a disk in memory, what it takes to go back to the last sync, and the record of its
/// writes, syncs and restarts. After a call that found no memory the record is as before, and the
/// content is of no use.
#[derive(Debug, Drop)]
pub(crate) struct Store {
    alloc: Global,
    frames: Frames,
    /// What was overwritten since the last sync, the oldest first.
    pending: Vec<Overwritten>,
    changes: Vec<Change>,
}

impl Store {
    /// Zeros everywhere. It takes no memory.
    pub(crate) fn new(alloc: Global) -> Store
        ensures stands { IsStore result }
        ensures changes { result.changes.items ≡ [] }
    {
        Store {
            alloc,
            frames: Frames::new(alloc),
            pending: Vec::new(alloc),
            changes: Vec::new(alloc),
        }
    }

    /// The writes, syncs and restarts, in order.
    pub(crate) fn changes(&self) -> &[Change]
        ensures { result.now ≡ self.now.changes.items }
    {
        self.changes.as_slice()
    }

    /// Fills `into` with the bytes from the place `at` on.
    pub(crate) fn read(&self, at: u64, into: &mut [u8])
        requires { at + length into.old < 2 ^ 64 }
        ensures { Holds (bytes_of self.now.frames) at into.new }
    {
        self.frames.read(at, into);
    }

    /// Writes these bytes at the place `at` and behind it.
    pub(crate) fn write(&mut self, at: u64, from: &[u8]) -> Result<(), NoMemory>
        requires { at + length from.now < 2 ^ 64 }
        ensures stands { OnOk result (IsStore self.old → IsStore self.new) }
        ensures ok { OnOk result (self.new.changes.items ≡ self.old.changes.items ++ Change.Wrote at from.now ∷ []) }
        ensures err { OnErr result (self.new.changes.items ≡ self.old.changes.items) }
    {
        let bytes = Bytes::from_slice(self.alloc, from)?;
        let old = self.overwritten(at, from.len())?;
        self.pending.push(old)?;
        self.frames.write(at, from)?;
        self.changes.push(Change::Wrote { at, bytes })?;
        Ok(())
    }

    /// A write of this many bytes fails: none of them arrives.
    pub(crate) fn miss(&mut self, at: u64, length: usize) -> Result<(), NoMemory>
        requires { at + length < 2 ^ 64 }
        ensures stands { OnOk result (IsStore self.old → IsStore self.new) }
        ensures ok { OnOk result (self.new.changes.items ≡ self.old.changes.items ++ Change.Missed at length ∷ []) }
        ensures err { OnErr result (self.new.changes.items ≡ self.old.changes.items) }
    {
        let old = self.overwritten(at, length)?;
        self.pending.push(old)?;
        self.changes.push(Change::Missed { at, length })?;
        Ok(())
    }

    /// What was written becomes safe.
    pub(crate) fn sync(&mut self) -> Result<(), NoMemory>
        ensures stands { OnOk result (IsStore self.old → IsStore self.new) }
        ensures ok { OnOk result (self.new.changes.items ≡ self.old.changes.items ++ Change.Synced ∷ []) }
        ensures err { OnErr result (self.new.changes.items ≡ self.old.changes.items) }
    {
        self.changes.push(Change::Synced)?;
        self.pending.clear();
        Ok(())
    }

    /// The disk starts anew with the image that `choice` names.
    pub(crate) fn restart(&mut self, choice: Choice) -> Result<(), NoMemory>
        ensures stands { OnOk result (IsStore self.old → IsStore self.new) }
        ensures ok { OnOk result (self.new.changes.items ≡ self.old.changes.items ++ Change.Restarted choice ∷ []) }
        ensures err { OnErr result (self.new.changes.items ≡ self.old.changes.items) }
    {
        take_image(&mut self.frames, &mut self.pending, choice)?;
        self.changes.push(Change::Restarted(choice))?;
        Ok(())
    }

    /// What stands in a range.
    fn overwritten(&self, at: u64, count: usize) -> Result<Overwritten, NoMemory>
        requires { at + count < 2 ^ 64 }
        ensures at { IfOk result (λ o. o.at ≡ at) }
        ensures len { IfOk result (λ o. length o.bytes.items ≡ count) }
        ensures bytes { IfOk result (λ o. Holds (bytes_of self.now.frames) at o.bytes.items) }
    {
        let mut bytes = vec![in self.alloc; 0; count]?;
        self.frames.read(at, &mut bytes);
        Ok(Overwritten { at, bytes })
    }
}

/// Makes the content the image that `choice` names, with nothing pending.
fn take_image(
    frames: &mut Frames,
    pending: &mut Vec<Overwritten>,
    choice: Choice,
) -> Result<(), NoMemory>
    ensures content { OnOk result ((place : ℕ)
        → bytes_of frames.new place ≡ image_by choice (bytes_of frames.old) pending.old.items place) }
    ensures none { OnOk result (pending.new.items ≡ []) }
{
    match choice {
        Choice::Old => undo(frames, pending),
        Choice::New => {
            pending.clear();
            Ok(())
        }
        Choice::Fill(byte) => fill(frames, pending, byte),
    }
}

/// Puts back what was overwritten, the newest first.
fn undo(frames: &mut Frames, pending: &mut Vec<Overwritten>) -> Result<(), NoMemory>
    ensures content { OnOk result ((place : ℕ)
        → bytes_of frames.new place ≡ undone (bytes_of frames.old) pending.old.items place) }
    ensures none { OnOk result (pending.new.items ≡ []) }
{
    while let Some(last) = pending.pop() {
        frames.write(last.at, &last.bytes)?;
    }
    Ok(())
}

/// Puts this byte at each pending place.
fn fill(frames: &mut Frames, pending: &mut Vec<Overwritten>, byte: u8) -> Result<(), NoMemory>
    ensures content { OnOk result ((place : ℕ) → bytes_of frames.new place ≡
        (if is_pending (ranges_of pending.old.items) place then byte else bytes_of frames.old place)) }
    ensures none { OnOk result (pending.new.items ≡ []) }
{
    while let Some(mut last) = pending.pop() {
        last.bytes.fill(byte);
        frames.write(last.at, &last.bytes)?;
    }
    Ok(())
}
