ghost use Rattle.std.specs.Prelude.{◌≡◌, ◌+◌, ◌<◌, ◌≤◌, ◌↔◌, ◌⊎◌, [], ◌++◌, length, take, min, Contains, Some, IsErr, IfOk, OnErr};
ghost use Rattle.sfs_base.specs.Fault.{HasCause};
ghost use Rattle.schedule_text.specs.Plan.{next_count};
ghost use Rattle.schedule_text.specs.Stream.{Puts};

use crate::Calls;
use crate::sink::Sink;
use sfs_base::{Failed, NoMemory};
use std::alloc::Global;
use std::marker::Model;

/// A sink in memory. It tells its bytes, and fails exactly at the calls that its list names and at
/// those that would go past its room, which it takes when it is made.
#[derive(Debug, Drop)]
pub struct PlanSink {
    bytes: Vec<u8>,
    room: usize,
    failing: Calls,
    calls: u64,
    most: usize,
    faults: u64,
}

impl Model for PlanSink {
    ghost use Rattle.std.specs.Prelude.{◌≤◌, ◌<◌, vec_len, vec_capacity};
    ghost use Rattle.schedule_text.specs.Plan.{Store};

    ghost Value = { Store };

    ghost view = { λ s. record {
      held = s.bytes.items;
      room = s.room;
      failing = s.failing;
      calls = s.calls;
      most = s.most;
      faults = s.faults;
    } };

    ghost invariant = { λ s. (vec_len s.bytes ≤ s.room) × (s.room ≤ vec_capacity s.bytes) × (0 < s.most) };
}

impl PlanSink {
    /// A sink with room for `room` bytes, whose calls with a number in `failing` fail. Each other call
    /// takes the whole piece, or fails where the piece is longer than the room that is left.
    /// [`NoMemory`]: there is no memory for the room.
    pub fn new(alloc: Global, room: usize, failing: Calls) -> Result<PlanSink, NoMemory>
        ensures { IfOk result (λ s. s ≡ record { held = []; room = room; failing = failing; calls = 0; most = usize.MAX; faults = 0 }) }
    {
        Ok(PlanSink {
            bytes: Vec::with_capacity(alloc, room)?,
            room,
            failing,
            calls: 0,
            most: usize::MAX,
            faults: 0,
        })
    }

    /// The same sink, which takes at most `most` bytes a call.
    pub fn in_pieces(self, most: usize) -> PlanSink
        requires { 0 < most }
        ensures { result ≡ record self { most = most } }
    {
        let mut sink = self;
        sink.most = most;
        sink
    }

    /// The bytes that are held.
    pub fn bytes(&self) -> &[u8]
        ensures { result.now ≡ self.now.held }
    {
        self.bytes.as_slice()
    }

    /// How many calls failed so far; it stands still at the last value of a u64.
    pub fn faults(&self) -> u64
        ensures { result ≡ self.now.faults }
    {
        self.faults
    }
}

impl Sink for PlanSink {
    ghost faults = { λ s. s.faults };

    ghost held = { λ s. Some s.held };

    /// Beside what each sink owes: which calls fail, how many bytes a call takes, and what the sink is
    /// afterwards.
    fn write(&mut self, from: &[u8]) -> Result<usize, Failed>
        ensures cause { HasCause self.old.faults self.new.faults result }
        ensures within { IfOk result (λ n. n ≤ length from.now) }
        ensures some { IfOk result (λ n. 0 < length from.now → 0 < n) }
        ensures given { IfOk result (λ n. Puts (Some self.old.held) (Some self.new.held) (take n from.now)) }
        ensures kept { OnErr result (Some self.new.held ≡ Some self.old.held) }

        // A call fails where the list names it, or where what it would take is more than the room left.
        ensures planned { IsErr result ↔ (Contains self.old.failing (next_count self.old.calls)
            ⊎ (self.old.room < length self.old.held + min (length from.now) self.old.most)) }
        ensures number { IfOk result (λ n. n ≡ min (length from.now) self.old.most) }
        ensures ok { IfOk result (λ n. self.new ≡ record self.old { held = self.old.held ++ take n from.now; calls = next_count self.old.calls }) }
        ensures err { OnErr result (self.new ≡ record self.old { calls = next_count self.old.calls; faults = next_count self.old.faults }) }
    {
        self.calls = self.calls.saturating_add(1);
        let n = from.len().min(self.most);
        if self.failing.as_slice().contains(&self.calls) || n > self.room - self.bytes.len() {
            self.faults = self.faults.saturating_add(1);
            return Err(Failed);
        }
        self.bytes.extend_from_slice(&from[..n]).unwrap();
        Ok(n)
    }
}
