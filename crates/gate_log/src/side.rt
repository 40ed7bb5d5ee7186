ghost use Rattle.std.specs.Prelude.{◌≡◌};
ghost use Rattle.gate_log.specs.Boot.{side_of, other_side, place_of};

/// Which of two places a selector names. The next value is written to the other one before the selector names
/// that.
#[derive(Clone, Copy, Debug, PartialEq, Eq)]
pub enum Side {
    /// The one that a selector names whose lowest bit is 0.
    First,
    /// The one that a selector names whose lowest bit is 1.
    Second,
}

impl Side {
    /// The side that a selector names.
    pub fn of(selector: u8) -> Side
        ensures { result ≡ side_of selector }
    {
        if selector % 2 == 0 {
            Side::First
        } else {
            Side::Second
        }
    }

    /// The other side.
    pub(crate) fn other(self) -> Side
        ensures { result ≡ other_side self }
    {
        match self {
            Side::First => Side::Second,
            Side::Second => Side::First,
        }
    }

    /// Where its number stands.
    pub(crate) fn place(self) -> u64
        ensures { result ≡ place_of self }
    {
        match self {
            Side::First => 4096,
            Side::Second => 8192,
        }
    }

    /// A selector that names it.
    pub(crate) fn selector(self) -> u8
        ensures { side_of result ≡ self }
    {
        match self {
            Side::First => 0,
            Side::Second => 1,
        }
    }
}
