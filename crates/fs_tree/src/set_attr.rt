ghost use Rattle.std.specs.Prelude.{◌≡◌, ◌-◌, ℕ, OnErr};
ghost use Rattle.nfs_proto.specs.declared.call.Call.TheVariants.{SetAttr};
ghost use Rattle.fs_rules.specs.Good.{IsGood};
ghost use Rattle.fs_rules.specs.Attributes.{sets_something, with_attributes};
ghost use Rattle.fs_rules.specs.Respond.{respond};
ghost use Rattle.fs_tree.specs.Meets.{Ends};

use crate::change::put_changed;
use crate::response::Response;
use crate::stop::Stop;
use fs_checks::sets_something;
use fs_decisions::may_set_attr;
use fs_edits::{take_out, with_attributes};
use fs_rules::{Answer, Cred, Handle, PlainTree, Sattr, Stamp, number_at};
use std::alloc::Global;

/// SETATTR: sets attributes of a file (RFC 1094, section 2.2.3).
pub(crate) fn set_attr(
    alloc: Global,
    tree: &mut PlainTree,
    handle: &Handle,
    set: &Sattr,
    cred: &Cred,
    now: Stamp,
) -> Result<Response, Stop>
    requires { IsGood tree.old }
    ensures meets { (start : ℕ) → Ends tree.old (respond tree.old (SetAttr handle.now set.now) cred.now now start) tree.new result }
    ensures err { OnErr result (tree.new ≡ tree.old) }
{
    let number = number_at(handle);
    let file = may_set_attr(tree, handle, set, cred)?;
    if !sets_something(set) {
        return Ok(Response::told(Answer::Attr(file.fattr(number))));
    }
    let file = take_out(alloc, tree, number);
    let changed = with_attributes(alloc, file, *set, now);
    Ok(put_changed(tree, number, changed, now))
}
