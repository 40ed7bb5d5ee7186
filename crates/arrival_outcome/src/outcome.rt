ghost use Rattle.std.specs.Prelude.{◌≡◌, ℕ, ◌%◌, Some, None, IfOk, OnOk};
ghost use Rattle.rpc_msg.specs.declared.cred.Cred.{Cred as TheCred};
ghost use Rattle.nfs_proto.specs.declared.stamp.Stamp.{Stamp as TheStamp};
ghost use Rattle.fs_rules.specs.Respond.{IsPick};
ghost use Rattle.nfs_service.specs.Reply.{effect, IsSized, AsksFit};
ghost use Rattle.arrival_outcome.specs.Outcome.{ComesTo, IsSizedReply, IsSpelledChange};

use fs_tree::{Call, Change, Stamp, Tree};
use nfs_service::{Request, reply_to};
use sfs_base::{Bytes, NoMemory};
use std::alloc::Global;

/// What an arrival comes to.
#[derive(Debug, Drop)]
pub struct Outcome {
    /// Its reply, if it gets one.
    pub reply: Option<Bytes>,
    /// The change that it made of the tree, if it made one.
    pub change: Option<Change>,
}

impl Outcome {
    /// Carries out the request that came with this arrival at the moment `now`. On [`NoMemory`] the tree
    /// may be changed.
    pub fn of(
        alloc: Global,
        tree: &mut Tree,
        request: Request,
        arrival: u32,
        now: Stamp,
    ) -> Result<Outcome, NoMemory>
        requires { AsksFit request }
        ensures comes { IfOk result (λ o. ComesTo tree.old tree.new o (effect tree.old request arrival now)) }
        ensures cluster { OnOk result (tree.new.geometry ≡ tree.old.geometry) }
        ensures sized { IsSized request → IfOk result (λ o. IsSizedReply o.reply) }
        ensures spelled { IfOk result (λ o. IsSpelledChange o.change) }
    {
        match request {
            Request::Told(reply) => Ok(Outcome::unchanged(Some(reply))),
            Request::Silent => Ok(Outcome::unchanged(None)),
            Request::Asked { xid, call, cred } => {
                let pick = pick_for(tree, &call, arrival);
                let response = tree.respond(&call, &cred, now, pick)?;
                Ok(Outcome {
                    reply: Some(reply_to(alloc, xid, &response.answer)?),
                    change: response.change,
                })
            }
        }
    }

    // A reply, or none, that leaves the tree as it is.
    fn unchanged(reply: Option<Bytes>) -> Outcome
        ensures reply { result.reply ≡ reply }
        ensures change { result.change ≡ None }
    {
        Outcome {
            reply,
            change: None,
        }
    }
}

// The number of the file that a call makes, if it makes one: its search begins at the memory node with the
// arrival's number, so that files spread over all of them.
fn pick_for(tree: &Tree, call: &Call, arrival: u32) -> Option<u32>
    ensures { (cred : TheCred) (now : TheStamp) → IsPick tree.now call.now cred now (arrival % tree.now.geometry.memories) result }
{
    match call {
        Call::Create { .. } | Call::SymLink { .. } | Call::MakeDir { .. } => {
            tree.free_number(arrival % tree.geometry().memories)
        }
        _ => None,
    }
}
