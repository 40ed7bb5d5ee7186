ghost use Rattle.std.specs.Prelude.{◌≡◌, [], ◌∷◌};
ghost use Rattle.line_text.specs.Grammar.{down_words};

use crate::names;

/// Why an actor went down.
#[derive(Clone, Copy, Debug, PartialEq, Eq)]
pub enum DownWhy {
    /// The stop of its line was reached.
    Stop,
    /// Its disk failed.
    Fault,
    /// Its log is full.
    Full,
    /// Its boot number is the last one.
    Spent,
    /// At a start its disk reads as damaged, or as another cluster's: a memory node alone.
    Damaged,
}

impl DownWhy {
    /// Its word.
    pub fn name(self) -> &'static [u8]
        ensures { down_words self ≡ result.now ∷ [] }
    {
        match self {
            DownWhy::Stop => names::STOP,
            DownWhy::Fault => names::FAULT,
            DownWhy::Full => names::FULL,
            DownWhy::Spent => names::SPENT,
            DownWhy::Damaged => names::DAMAGED,
        }
    }
}
