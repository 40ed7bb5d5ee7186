ghost use Rattle.std.specs.Prelude.{◌≡◌, ◌<◌, ◌≤◌, ◌↔◌, ◌++◌, length, take, drop, min, Contains, Some, IsErr, IfOk, OnErr};
ghost use Rattle.sfs_base.specs.Fault.{HasCause};
ghost use Rattle.schedule_text.specs.Plan.{next_count};
ghost use Rattle.schedule_text.specs.Stream.{Takes, IsAtEnd};

use crate::Calls;
use crate::source::Source;
use sfs_base::{Bytes, Failed};
use std::marker::Model;

/// A source in memory. It tells its bytes, and fails exactly at the calls that its list names.
#[derive(Debug, Drop)]
pub struct PlanSource {
    bytes: Bytes,
    at: usize,
    failing: Calls,
    calls: u64,
    most: usize,
    faults: u64,
}

impl Model for PlanSource {
    ghost use Rattle.std.specs.Prelude.{◌≤◌, ◌<◌, length, drop};
    ghost use Rattle.schedule_text.specs.Plan.{Supply};

    ghost Value = { Supply };

    ghost view = { λ s. record {
      left = drop s.at s.bytes;
      failing = s.failing;
      calls = s.calls;
      most = s.most;
      faults = s.faults;
    } };

    ghost invariant = { λ s. (s.at ≤ length s.bytes) × (0 < s.most) };
}

impl PlanSource {
    /// A source of these bytes, whose calls with a number in `failing` fail. Each other call gives as
    /// many bytes as fit in the piece.
    pub fn new(bytes: Bytes, failing: Calls) -> PlanSource
        ensures { result ≡ record { left = bytes; failing = failing; calls = 0; most = usize.MAX; faults = 0 } }
    {
        PlanSource {
            bytes,
            at: 0,
            failing,
            calls: 0,
            most: usize::MAX,
            faults: 0,
        }
    }

    /// The same source, which gives at most `most` bytes a call.
    pub fn in_pieces(self, most: usize) -> PlanSource
        requires { 0 < most }
        ensures { result ≡ record self { most = most } }
    {
        let mut source = self;
        source.most = most;
        source
    }

    /// The bytes that are left.
    pub fn bytes(&self) -> &[u8]
        ensures { result.now ≡ self.now.left }
    {
        &self.bytes.as_slice()[self.at..]
    }

    /// How many calls failed so far; it stands still at the last value of a u64.
    pub fn faults(&self) -> u64
        ensures { result ≡ self.now.faults }
    {
        self.faults
    }
}

impl Source for PlanSource {
    ghost faults = { λ s. s.faults };

    ghost left = { λ s. Some s.left };

    /// Beside what each source owes: which calls fail, how many bytes a call gives and which, and what
    /// the source is afterwards.
    fn read(&mut self, into: &mut [u8]) -> Result<usize, Failed>
        ensures cause { HasCause self.old.faults self.new.faults result }
        ensures within { IfOk result (λ n. n ≤ length into.old) }
        ensures given { IfOk result (λ n. Takes (Some self.old.left) (Some self.new.left) (take n into.new)) }
        ensures ended { IfOk result (λ n. n ≡ 0 → 0 < length into.old → IsAtEnd (Some self.old.left)) }
        ensures kept { OnErr result (Some self.new.left ≡ Some self.old.left) }

        ensures planned { IsErr result ↔ Contains self.old.failing (next_count self.old.calls) }
        ensures number { IfOk result (λ n. n ≡ min (min (length self.old.left) (length into.old)) self.old.most) }
        ensures piece { IfOk result (λ n. into.new ≡ take n self.old.left ++ drop n into.old) }
        ensures ok { IfOk result (λ n. self.new ≡ record self.old { left = drop n self.old.left; calls = next_count self.old.calls }) }
        ensures err { OnErr result (self.new ≡ record self.old { calls = next_count self.old.calls; faults = next_count self.old.faults }) }
        ensures untouched { OnErr result (into.new ≡ into.old) }
    {
        self.calls = self.calls.saturating_add(1);
        if self.failing.as_slice().contains(&self.calls) {
            self.faults = self.faults.saturating_add(1);
            return Err(Failed);
        }
        let left = &self.bytes.as_slice()[self.at..];
        let n = left.len().min(into.len()).min(self.most);
        into[..n].copy_from_slice(&left[..n]);
        self.at += n;
        Ok(n)
    }
}
