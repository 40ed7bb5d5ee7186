ghost use Rattle.std.specs.Prelude.{◌≡◌};
ghost use Rattle.mini_tx.specs.Order.{is_same, precedes};

/// The identifier of a minitransaction. Identifiers are ordered by coordinator, then by the boot number
/// of its start, then by the number within that start.
#[derive(Clone, Copy, Debug, PartialEq, Eq, PartialOrd, Ord)]
pub struct TxId {
    pub coord: u32,
    pub boot: u64,
    pub seq: u64,
}

impl TxId {
    /// Whether it comes before another, as `<` says.
    pub fn precedes(self, other: TxId) -> bool
        ensures { result ≡ precedes self other }
    {
        self < other
    }

    /// Whether it is the same as another, as `==` says.
    pub fn is_same(self, other: TxId) -> bool
        ensures { result ≡ is_same self other }
    {
        self == other
    }
}
