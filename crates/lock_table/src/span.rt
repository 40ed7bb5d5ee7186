ghost use Rattle.std.specs.Prelude.{◌≡◌};
ghost use Rattle.lock_table.specs.Spans.{span_of, joined};

use mini_tx::Range;

/// The places from `at` on and below `end`.
#[derive(Clone, Copy, Debug, PartialEq, Eq)]
pub struct Span {
    pub at: u64,
    pub end: u64,
}

impl Span {
    /// The places of a range.
    pub(crate) fn of(range: Range) -> Span
        ensures { result ≡ span_of range }
    {
        let at = range.at as u64;
        Span {
            at,
            end: at + range.length as u64,
        }
    }

    /// From the first place of both to the last.
    pub(crate) fn joined(self, other: Span) -> Span
        ensures { result ≡ joined self other }
    {
        Span {
            at: self.at.min(other.at),
            end: self.end.max(other.end),
        }
    }
}
