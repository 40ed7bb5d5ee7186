ghost use Rattle.std.specs.Prelude.{◌≡◌, Some, None};

use mini_tx::{Entry, Message};

/// What a memory node does with a message: the entry that it appends to its log, if it appends one, and then
/// the message that it sends, if it sends one.
#[derive(Drop)]
pub struct Reaction {
    pub entry: Option<Entry>,
    pub answer: Option<Message>,
}

impl Reaction {
    /// Nothing is done.
    pub(crate) fn none() -> Reaction
        ensures entry { result.entry ≡ None }
        ensures answer { result.answer ≡ None }
    {
        Reaction {
            entry: None,
            answer: None,
        }
    }

    /// A message is sent.
    pub(crate) fn answer(message: Message) -> Reaction
        ensures entry { result.entry ≡ None }
        ensures answer { result.answer ≡ Some message }
    {
        Reaction {
            entry: None,
            answer: Some(message),
        }
    }

    /// An entry is appended, and then a message is sent.
    pub(crate) fn append(entry: Entry, message: Message) -> Reaction
        ensures entry { result.entry ≡ Some entry }
        ensures answer { result.answer ≡ Some message }
    {
        Reaction {
            entry: Some(entry),
            answer: Some(message),
        }
    }
}
