ghost use Rattle.std.specs.Prelude.{◌≡◌, ℕ, ◌<◌, ◌≤◌, List, length, take, Option, IfOk, OnErr};
ghost use Rattle.sfs_base.specs.Fault.{HasCause};
ghost use Rattle.schedule_text.specs.Stream.{Puts};

use sfs_base::Failed;

/// Where a program writes to.
pub trait Sink {
    /// How many calls failed so far; it stands still at the last value of a u64.
    ghost faults: { Self → ℕ };

    /// The bytes that are held, in the order in which they were taken, where the sink tells them.
    ghost held: { Self → Option (List ℕ) };

    /// Takes bytes from the front of the piece `from`, and answers how many. Of a piece that is not
    /// empty it takes at least one byte, or fails. [`Failed`]: the sink took none, its count of
    /// faults rose, and the bytes that are held are as before.
    fn write(&mut self, from: &[u8]) -> Result<usize, Failed>
        ensures cause { HasCause (faults self.old) (faults self.new) result }
        ensures within { IfOk result (λ n. n ≤ length from.now) }
        ensures some { IfOk result (λ n. 0 < length from.now → 0 < n) }
        ensures given { IfOk result (λ n. Puts (held self.old) (held self.new) (take n from.now)) }
        ensures kept { OnErr result (held self.new ≡ held self.old) };
}
