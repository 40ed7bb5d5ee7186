ghost use Rattle.std.specs.Prelude.{◌↔◌, Contains, IsTrue};
ghost use Rattle.std.specs.List.Sorted.{IsPermutation, IsNonDecreasing};

use crate::Calls;

/// The numbers of the calls that fail, in ascending order.
#[derive(Debug, Drop)]
pub(crate) struct Failing {
    calls: Vec<u64>,
    ghost ordered: { IsNonDecreasing calls.items },
}

impl Failing {
    ghost use Rattle.disk_model.specs.Failing.{failing_of};
    ghost use Rattle.disk_model.specs.Health.{next_count};
    ghost use Rattle.std.specs.Prelude.{◌≡◌, []};

    /// These numbers. It takes no memory.
    pub(crate) fn new(calls: Calls) -> Failing
        ensures { IsPermutation calls (failing_of result) }
    {
        let mut calls = calls.into_vec();
        calls.sort_unstable();
        Failing { calls }
    }

    /// Counts a call, and says whether it fails.
    pub(crate) fn next_fails(&self, calls: &mut u64) -> bool
        ensures count { calls.new ≡ next_count calls.old }
        ensures named { IsTrue result ↔ Contains (failing_of self.now) (next_count calls.old) }
    {
        *calls = calls.saturating_add(1);
        self.calls.as_slice().binary_search(calls).is_ok()
    }

    /// From now on none does. It takes no memory.
    pub(crate) fn clear(&mut self)
        ensures { failing_of self.new ≡ [] }
    {
        self.calls.clear();
    }
}
