ghost use Rattle.std.specs.Prelude.{◌≡◌};
ghost use Rattle.mem_rules.specs.Memory.{IsRecordRoom};
ghost use Rattle.mem_rules.specs.declared.room.Room.TheVariants.{Record};

use crate::kept::Kept;

/// The memory that an entry will need once it is safe in the log.
#[derive(Drop)]
pub enum Room {
    /// None.
    Nothing,
    /// There is room for one more record, and this is its place, with its identifier and a copy of its vote.
    Record(Box<Kept>),
}

impl Room {
    /// The place of the record.
    pub(crate) fn into_record(self) -> Box<Kept>
        requires { IsRecordRoom self }
        ensures { self ≡ Record result }
    {
        match self {
            Room::Record(record) => record,
            Room::Nothing => unreachable!(),
        }
    }
}
