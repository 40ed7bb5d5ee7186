ghost use Rattle.std.specs.Prelude.{◌≡◌, ℕ, OnErr};
ghost use Rattle.fs_rules.specs.Good.{IsGood};
ghost use Rattle.fs_rules.specs.Respond.{respond};
ghost use Rattle.fs_decisions.specs.Removing.{removal_of};
ghost use Rattle.fs_tree.specs.Meets.{Ends};

use crate::response::Response;
use crate::stop::Stop;
use fs_checks::Removal;
use fs_decisions::removed;
use fs_edits::take_entry;
use fs_rules::{Cred, Handle, PlainTree, Stamp, number_at};
use std::alloc::Global;

/// REMOVE and RMDIR: take a name of a file, which is no directory, away, or free a directory in which no
/// name is in use (RFC 1094, sections 2.2.11 and 2.2.16).
pub(crate) fn remove(
    alloc: Global,
    tree: &mut PlainTree,
    removal: Removal,
    handle: &Handle,
    name: &[u8],
    cred: &Cred,
    now: Stamp,
) -> Result<Response, Stop>
    requires { IsGood tree.old }
    ensures meets { (start : ℕ) → Ends tree.old (respond tree.old (removal_of removal handle.now name.now) cred.now now start) tree.new result }
    ensures err { OnErr result (tree.new ≡ tree.old) }
{
    let file = removed(tree, removal, handle, name, cred)?;
    take_entry(alloc, tree, number_at(handle), name, file, now)?;
    Ok(Response::done())
}
