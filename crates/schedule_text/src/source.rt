ghost use Rattle.std.specs.Prelude.{◌≡◌, ℕ, ◌<◌, ◌≤◌, List, length, take, Option, IfOk, OnErr};
ghost use Rattle.sfs_base.specs.Fault.{HasCause};
ghost use Rattle.schedule_text.specs.Stream.{Takes, IsAtEnd};

use sfs_base::Failed;

/// Where a program reads from.
pub trait Source {
    /// How many calls failed so far; it stands still at the last value of a u64.
    ghost faults: { Self → ℕ };

    /// The bytes that are left, where the source tells them.
    ghost left: { Self → Option (List ℕ) };

    /// Gives some of the bytes that are left, the first ones first, at the front of the piece `into`,
    /// and answers how many. An answer of 0 for a piece that is not empty is the end of input.
    /// [`Failed`]: the source could not give any, its count of faults rose, and the bytes that are
    /// left are as before.
    fn read(&mut self, into: &mut [u8]) -> Result<usize, Failed>
        ensures cause { HasCause (faults self.old) (faults self.new) result }
        ensures within { IfOk result (λ n. n ≤ length into.old) }
        ensures given { IfOk result (λ n. Takes (left self.old) (left self.new) (take n into.new)) }
        ensures ended { IfOk result (λ n. n ≡ 0 → 0 < length into.old → IsAtEnd (left self.old)) }
        ensures kept { OnErr result (left self.new ≡ left self.old) };
}
