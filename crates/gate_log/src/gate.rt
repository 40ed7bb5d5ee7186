ghost use Rattle.std.specs.Prelude.{◌≡◌, ◌≤◌, ◌<◌, ◌+◌, ◌-◌, ◌^◌, ℕ, length, min};
ghost use Rattle.disk_model.specs.Crash.{Content, Holds};
ghost use Rattle.gate_log.specs.Scan.{StandsAt, EndsBelow};

use crate::layout::{HEADER_BYTES, MAX_LOG_BYTES, OPEN, is_full};
use crate::numbers::word_of;

/// What stands at a gate.
#[derive(Clone, Copy, Debug, PartialEq, Eq)]
pub(crate) enum Gate {
    /// The log ends there.
    Closed,
    /// An entry of this length stands behind it.
    Open(u32),
    /// It is open, and its entry would end past the limit.
    Damaged,
}

impl Gate {
    /// What stands at the gate this far from the start of its log, whose bytes these are, with those behind
    /// it. A length past the log's limit is not looked at.
    pub(crate) fn at(end: u64, bytes: &[u8]) -> Gate
        requires end { end < 2 ^ 32 }
        requires bytes { min 5 (2 ^ 32 - end) ≤ length bytes.now }
        ensures stands { (content : Content) (gate : ℕ) → Holds content gate bytes.now
            → StandsAt content gate end result }
        ensures below { EndsBelow end result }
    {
        if bytes[0] != OPEN {
            return Gate::Closed;
        }
        if MAX_LOG_BYTES - end < HEADER_BYTES {
            return Gate::Damaged;
        }
        let length = word_of(&bytes[1..5]);
        if is_full(end, u64::from(length)) {
            return Gate::Damaged;
        }
        Gate::Open(length)
    }
}
