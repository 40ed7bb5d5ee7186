ghost use Rattle.std.specs.Prelude.{◌≡◌};
ghost use Rattle.mini_tx.specs.Order.{cut_precedes, is_same_cut};

/// The identifier of a cut that the manager makes. Cuts are ordered by the boot number of its start,
/// then by the number within that start.
#[derive(Clone, Copy, Debug, PartialEq, Eq, PartialOrd, Ord)]
pub struct CutId {
    pub boot: u64,
    pub seq: u64,
}

impl CutId {
    /// Whether it comes before another, as `<` says.
    pub fn precedes(self, other: CutId) -> bool
        ensures { result ≡ cut_precedes self other }
    {
        self < other
    }

    /// Whether it is the same as another, as `==` says.
    pub fn is_same(self, other: CutId) -> bool
        ensures { result ≡ is_same_cut self other }
    {
        self == other
    }
}
