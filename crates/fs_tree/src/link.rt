ghost use Rattle.std.specs.Prelude.{◌≡◌, ◌-◌, ◌<◌, ℕ, OnErr};
ghost use Rattle.nfs_proto.specs.declared.call.Call.TheVariants.{Link};
ghost use Rattle.fs_rules.specs.Good.{IsGood};
ghost use Rattle.fs_rules.specs.Respond.{respond};
ghost use Rattle.fs_tree.specs.Meets.{Ends};

use crate::response::Response;
use crate::stop::Stop;
use fs_decisions::may_link;
use fs_edits::give_one;
use fs_rules::{Cred, Handle, PlainTree, Stamp, number_at};
use std::alloc::Global;

/// LINK: gives a file, which is no directory, a new name (RFC 1094, section 2.2.13).
pub(crate) fn link(
    alloc: Global,
    tree: &mut PlainTree,
    file: &Handle,
    dir: &Handle,
    name: &[u8],
    cred: &Cred,
    now: Stamp,
) -> Result<Response, Stop>
    requires { IsGood tree.old }
    ensures meets { (start : ℕ) → Ends tree.old (respond tree.old (Link file.now dir.now name.now) cred.now now start) tree.new result }
    ensures err { OnErr result (tree.new ≡ tree.old) }
{
    may_link(tree, file, dir, name, cred)?;
    let linked = number_at(file);
    give_one(alloc, tree, number_at(dir), name, linked, now)?;
    Ok(Response::done())
}
