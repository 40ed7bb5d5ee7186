ghost use Rattle.std.specs.Prelude.{◌≡◌, None, Some};
ghost use Rattle.nfs_proto.specs.declared.answer.Answer.TheVariants.{Fault, Found, Plain};
ghost use Rattle.fs_rules.specs.Handle.{handle};
ghost use Rattle.fs_tree.specs.Meets.{made_by};

use fs_checks::Status;
use fs_rules::{Answer, Fattr, handle_of};

/// What a call is answered, and what it changed.
#[derive(Debug, PartialEq, Eq, Drop)]
pub struct Response {
    pub answer: Answer,
    /// The change of the tree; `None` where the tree is as before.
    pub change: Option<Change>,
}

impl Response {
    // The number and the generation of the file that was made, if one was.
    pub(crate) fn made(&self) -> Option<(u32, u32)>
        ensures { result ≡ made_by self.now }
    {
        self.change?.made
    }

    // An answer that changes nothing.
    pub(crate) fn told(answer: Answer) -> Response
        ensures answer { result.answer ≡ answer }
        ensures change { result.change ≡ None }
    {
        Response {
            answer,
            change: None,
        }
    }

    // A call that is refused, which changes nothing.
    pub(crate) fn refused(status: Status) -> Response
        ensures answer { result.answer ≡ Fault status.0 }
        ensures change { result.change ≡ None }
    {
        Response::told(Answer::Fault(status.0))
    }

    // A change of which no more is told than that it was made, and which makes no file.
    pub(crate) fn done() -> Response
        ensures answer { result.answer ≡ Plain }
        ensures change { result.change ≡ Some (record { made = None }) }
    {
        Response {
            answer: Answer::Plain,
            change: Some(Change { made: None }),
        }
    }

    // What is told of a file after a change, which made the file or did not.
    pub(crate) fn found(number: u32, generation: u32, attr: Fattr, change: Change) -> Response
        ensures answer { result.answer ≡ Found (record { 0 = handle number generation }) attr }
        ensures change { result.change ≡ Some change }
    {
        Response {
            answer: Answer::Found {
                file: handle_of(number, generation),
                attr,
            },
            change: Some(change),
        }
    }
}

/// A change of the tree.
#[derive(Clone, Copy, Debug, PartialEq, Eq)]
pub struct Change {
    /// The number and the generation of the file that was made, if one was.
    pub made: Option<(u32, u32)>,
}
