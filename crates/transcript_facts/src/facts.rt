use crate::backups::Backups;
use crate::downs::Downs;
use crate::now::Now;
use crate::owed::Owed;
use transcript_book::{Arrivals, Mail, Said};

/// What the lines of a transcript tell, all but the trees.
#[derive(Drop)]
pub struct Facts {
    /// How many lines of the schedule are used up.
    pub taken: usize,
    /// The deliveries of the drain that runs.
    pub drained: u32,
    /// What is asked of the event whose lines stand last.
    pub event: Now,
    /// How many events there were.
    pub under: u64,
    /// The lines under this event.
    pub said: Said,
    pub arrivals: Arrivals,
    /// How many changes there were.
    pub points: u64,
    pub mail: Mail,
    pub down: Downs,
    pub backups: Backups,
    pub owed: Owed,
    /// The last line stands.
    pub closed: bool,
}
