ghost use Rattle.std.specs.Prelude.{◌≡◌, ℕ, OnErr};
ghost use Rattle.nfs_proto.specs.declared.call.Call.TheVariants.{Rename};
ghost use Rattle.fs_rules.specs.Good.{IsGood};
ghost use Rattle.fs_rules.specs.Respond.{respond};
ghost use Rattle.fs_tree.specs.Meets.{Ends};

use crate::response::Response;
use crate::stop::Stop;
use fs_decisions::{Decision, decided};
use fs_edits::carry_over;
use fs_rules::{Answer, Cred, Handle, PlainTree, Stamp};
use std::alloc::Global;

/// RENAME: moves a file from a name of one directory to a name of another one, or of the same, over the
/// file that has it, if there is one (RFC 1094, section 2.2.12).
pub(crate) fn rename(
    alloc: Global,
    tree: &mut PlainTree,
    from: &Handle,
    from_name: &[u8],
    to: &Handle,
    to_name: &[u8],
    cred: &Cred,
    now: Stamp,
) -> Result<Response, Stop>
    requires { IsGood tree.old }
    ensures meets { (start : ℕ) → Ends tree.old (respond tree.old (Rename from.now from_name.now to.now to_name.now) cred.now now start) tree.new result }
    ensures err { OnErr result (tree.new ≡ tree.old) }
{
    let decision = decided(tree, from, from_name, to, to_name, cred)?;
    match decision {
        Decision::Same => Ok(Response::told(Answer::Plain)),
        Decision::Moves(plan) => {
            carry_over(alloc, tree, plan, from_name, to_name, now)?;
            Ok(Response::done())
        }
    }
}
