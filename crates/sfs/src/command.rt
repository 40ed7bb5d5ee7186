ghost use Rattle.std.specs.Prelude.{◌≡◌, [], ◌∷◌, map, string_bytes};
ghost use Rattle.line_words.specs.Words.{number_of};
ghost use Rattle.line_words.specs.Reading.{AnswersBad};
ghost use Rattle.sfs.specs.Command.{asked, only_number};

use line_words::{LineFault, Words, u32_of};

/// The most arrivals of a made schedule.
pub const MAX_ARRIVALS: u32 = 100_000;

const REPLAY: &[u8] = b"replay";

const TREE: &[u8] = b"tree";

const MAKE: &[u8] = b"make";

const CHECK: &[u8] = b"check";

/// What the words of a command line ask for.
#[derive(Clone, Copy, Debug, PartialEq, Eq)]
pub enum Command {
    /// `replay`: replay a schedule.
    Replay,
    /// `tree`: list the tree of images.
    Tree,
    /// `check`: judge a transcript.
    Check,
    /// `make SEED COUNT`: make a schedule of so many arrivals from a number.
    Make { seed: u64, count: u32 },
}

impl Command {
    /// The command that these words are; `None` where they are none.
    pub fn of(words: &[String]) -> Option<Command>
        ensures { result ≡ asked (map string_bytes words.now) }
    {
        match words {
            [name] => alone(name.as_bytes()),
            [name, seed, count] => with_numbers(name.as_bytes(), seed.as_bytes(), count.as_bytes()),
            _ => None,
        }
    }
}

// The command of one word.
fn alone(name: &[u8]) -> Option<Command>
    ensures { result ≡ asked (name.now ∷ []) }
{
    if name == REPLAY {
        Some(Command::Replay)
    } else if name == TREE {
        Some(Command::Tree)
    } else if name == CHECK {
        Some(Command::Check)
    } else {
        None
    }
}

// The command of one word and two numerals.
fn with_numbers(name: &[u8], seed: &[u8], count: &[u8]) -> Option<Command>
    ensures { result ≡ asked (name.now ∷ seed.now ∷ count.now ∷ []) }
{
    if name != MAKE {
        return None;
    }
    let seed = u64_of(seed)?;
    let count = u32_of(count)?;
    if count > MAX_ARRIVALS {
        return None;
    }
    Some(Command::Make { seed, count })
}

// The number below 2^64 that a word spells.
fn u64_of(word: &[u8]) -> Option<u64>
    ensures { result ≡ number_of 64 word.now }
{
    only_number(&mut Words::new(word)).ok()
}

// The number below 2^64 that all of the words are.
#[tactic(auto, unfolding(crate::specs::Command::only_number))]
fn only_number(words: &mut Words<'_>) -> Result<u64, LineFault>
    ensures { AnswersBad result (only_number 64 words.old) }
{
    let number = words.u64()?;
    words.end(number)
}
