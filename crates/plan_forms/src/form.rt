ghost use Rattle.std.specs.Prelude.{◌≡◌, IfOk};
ghost use Rattle.plan_forms.specs.Forms.{AreReadsFor, said};

use crate::joining::joined;
use crate::space::space;
use mini_tx::Reads;
use nfs_proto::{Answer, Fattr};
use node_cache::{Geometry, NoMemory};
use sfs_base::Seq;
use std::alloc::Global;

/// A piece of the bytes of a file.
#[derive(Clone, Copy, Debug, PartialEq, Eq)]
pub enum Piece {
    /// So many zeros: the block is not stored.
    Zeros(u32),
    /// What was read next.
    Read,
}

/// The pieces of a file's bytes, in order.
pub type Pieces = Seq<Piece>;

/// How an answer is made of what a final minitransaction reads.
#[derive(Debug, Drop)]
pub enum AnswerForm {
    /// This answer, whatever is read.
    Ready(Answer),
    /// The path of a link, in pieces.
    Path(Pieces),
    /// What a client is told of a file, and bytes of it, in pieces.
    Part { attr: Fattr, pieces: Pieces },
    /// The blocks of a cluster of this size: what is read are the maps of its memory nodes.
    Space(Geometry),
}

impl AnswerForm {
    /// The answer, by the reads of the minitransaction that the form came with: as many and as long as it reads.
    pub fn finish(self, alloc: Global, reads: &Reads) -> Result<Answer, NoMemory>
        requires { AreReadsFor self reads.now }
        ensures { IfOk result (λ answer. answer ≡ said self reads.now) }
    {
        match self {
            AnswerForm::Ready(answer) => Ok(answer),
            AnswerForm::Path(pieces) => Ok(Answer::Path(joined(
                alloc,
                pieces.as_slice(),
                reads.as_slice(),
            )?)),
            AnswerForm::Part { attr, pieces } => Ok(Answer::Part {
                attr,
                bytes: joined(alloc, pieces.as_slice(), reads.as_slice())?,
            }),
            AnswerForm::Space(geometry) => Ok(space(&geometry, reads.as_slice())),
        }
    }
}
