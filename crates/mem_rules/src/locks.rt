ghost use Rattle.std.specs.Prelude.{◌≡◌, All, None};
ghost use Rattle.std.specs.List.{list_any};
ghost use Rattle.lock_table.specs.Spans.{IsNonempty};
ghost use Rattle.mem_rules.specs.Memory.{state_of};
ghost use Rattle.mem_rules.specs.Rules.{blocks, least_with};

use crate::memory::Memory;
use mini_tx::{Range, TxId};

impl Memory {
    /// The least identifier of a record that locks one of these ranges.
    pub(crate) fn least_blocking(&self, ranges: &[Range]) -> Option<TxId>
        requires { All IsNonempty ranges.now }
        ensures { result ≡ least_with (blocks ranges.now) None (state_of self.now).kept }
    {
        self.locks.least(ranges)
    }

    /// Whether a record locks one of these ranges.
    pub(crate) fn are_locked(&self, ranges: &[Range]) -> bool
        requires { All IsNonempty ranges.now }
        ensures { result ≡ list_any (blocks ranges.now) (state_of self.now).kept }
    {
        self.locks.least(ranges).is_some()
    }
}
