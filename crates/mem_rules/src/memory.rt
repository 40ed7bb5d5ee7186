ghost use Rattle.std.specs.Prelude.{◌≡◌, vec_len, IfOk};
ghost use Rattle.mem_rules.specs.Fit.{IsSetup, size_of};
ghost use Rattle.std.specs.List.{AllByRecursion-prop};
ghost use Rattle.std.proofs.Props.{props};
ghost use Rattle.std.proofs.Math.Bool.{Bool-set};
ghost use Rattle.lock_table.specs.Table.{locks_in};
ghost use Rattle.mem_rules.specs.Index.{IsIndexed};
ghost use Rattle.mem_rules.specs.Good.{IsGood, AreAscending-prop, AreAllApart-prop};
ghost use Rattle.mem_rules.specs.Records.{records_in};
ghost use Rattle.mem_rules.specs.State.{state_with};

use crate::floor::Floor;
use crate::floors::{no_floors, raise, raised};
use crate::image::Image;
use crate::kept::{Kept, filled};
use crate::records::Records;
use crate::room::Room;
use crate::setup::Setup;
use crate::standing::vote_at;
use crate::votes::copied;
use lock_table::Locks;
use mini_tx::{CutId, Entry, NoMemory, TxId, Vote};
use std::alloc::Global;

/// What a memory node took from its log.
#[derive(Drop)]
pub struct Memory {
    pub(crate) alloc: Global,
    pub(crate) setup: Setup,
    /// The floor of each coordinator, at its number.
    pub(crate) floors: Vec<Option<Floor>>,
    /// The kept records, in ascending order of their identifiers.
    pub(crate) kept: Records,
    /// The greatest cut that was held.
    pub(crate) cut: Option<CutId>,
    /// The ranges of the records that are undecided.
    pub(crate) locks: Locks,
    pub(crate) image: Image,
    ghost good: { IsGood setup (state_with floors.items (records_in kept) cut image) } by { Prim.hlevel (props, AllByRecursion-prop, AreAscending-prop, AreAllApart-prop) },
    ghost valid: { IsSetup setup },
    ghost indexed: { IsIndexed (records_in kept) (locks_in locks) } by { Prim.hlevel (props, Bool-set) },
}

impl Memory {
    ghost use Rattle.std.specs.Prelude.{◌<◌, OnOk, OnErr, option_map, None};
    ghost use Rattle.std.specs.Option.{option_copied};
    ghost use Rattle.mem_rules.specs.Fit.{IsFit};
    ghost use Rattle.mem_rules.specs.Memory.{state_of, setup_in, IsRoomFor, vote_of};
    ghost use Rattle.mem_rules.specs.State.{opened, after_entry};

    /// What stands before the first entry, with this image.
    pub fn opened(alloc: Global, setup: Setup, image: Vec<u8>) -> Result<Memory, NoMemory>
        requires setup { IsSetup setup }
        requires sized { vec_len image ≡ size_of setup }
        ensures state { IfOk result (λ memory. state_of memory ≡ opened setup.geometry.nodes image.items) }
        ensures setup { IfOk result (λ memory. setup_in memory ≡ setup) }
    {
        Ok(Memory {
            alloc,
            setup,
            floors: no_floors(alloc, setup.geometry.nodes)?,
            kept: Records::new(alloc),
            cut: None,
            locks: Locks::new(alloc),
            image: Image::new(image),
        })
    }

    /// Takes the memory that an entry will need once it is safe in the log. [`NoMemory`]: there is none.
    pub fn reserve(&mut self, entry: &Entry) -> Result<Room, NoMemory>
        ensures room { IfOk result (λ room. IsRoomFor self.new entry.now room) }
        ensures state { state_of self.new ≡ state_of self.old }
        ensures setup { setup_in self.new ≡ setup_in self.old }
    {
        match entry {
            Entry::Prepared {
                id,
                vote,
                ranges,
                ..
            } => {
                self.kept.reserve()?;
                self.locks.reserve(ranges.as_slice().len())?;
                let record = Kept::begun(self.alloc, *id, copied(vote)?);
                Ok(Room::Record(Box::new(self.alloc, record)?))
            }
            _ => Ok(Room::Nothing),
        }
    }

    /// Takes an entry of the log. It takes no memory.
    pub fn settle(&mut self, entry: Entry, room: Room)
        requires fit { IsFit (setup_in self.old) (state_of self.old) entry }
        requires room { IsRoomFor self.old entry room }
        ensures state { state_of self.new ≡ after_entry (state_of self.old) entry }
        ensures setup { setup_in self.new ≡ setup_in self.old }
    {
        match entry {
            Entry::Single { id, vote, writes } => {
                raise(&mut self.floors, id, vote);
                self.image.write_all(writes.as_slice());
            }
            Entry::Prepared {
                id,
                participants,
                vote,
                ranges,
                writes,
            } => {
                raise(&mut self.floors, id, vote);
                self.locks.lock(id, ranges.as_slice());
                let record = filled(room.into_record(), participants, ranges, writes);
                self.kept.keep(record);
            }
            Entry::Refused { id, vote } | Entry::Floor { id, vote } => raise(
                &mut self.floors,
                id,
                vote,
            ),
            Entry::Decided { id, commit } => {
                self.locks.free(id, self.kept.ranges_of(id));
                let writes = self.kept.decide(self.alloc, id, commit);
                if commit {
                    self.image.write_all(writes.as_slice());
                }
            }
            Entry::Forgotten { id } => self.kept.forget(id),
            Entry::Cut { cut } => self.cut = raised(self.cut, cut),
        }
    }

    /// The vote on an identifier that is kept, or is the floor of its coordinator. It takes no memory.
    pub fn vote(&self, id: TxId) -> Option<&Vote>
        requires { id.coord < (setup_in self.now).geometry.nodes }
        ensures { option_copied result ≡ vote_of (state_of self.now) id }
    {
        if let Some(record) = self.kept.get(id) {
            return Some(&record.vote);
        }
        vote_at(self.floors[id.coord as usize].as_ref(), id)
    }
}
