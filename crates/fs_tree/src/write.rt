ghost use Rattle.std.specs.Prelude.{◌≡◌, ◌≤◌, ◌-◌, ◌<◌, ℕ, length, OnErr};
ghost use Rattle.nfs_proto.specs.declared.call.Call.TheVariants.{Write};
ghost use Rattle.fs_rules.specs.Good.{IsGood};
ghost use Rattle.fs_rules.specs.Writing.{with_bytes};
ghost use Rattle.fs_rules.specs.Respond.{respond};
ghost use Rattle.fs_tree.specs.Meets.{Ends};

use crate::change::put_changed;
use crate::response::Response;
use crate::stop::Stop;
use fs_decisions::{check_limits, may_write, rise};
use fs_edits::{put_back, take_out, with_bytes};
use fs_rules::{Answer, Cred, Handle, PlainTree, Stamp, number_at};
use std::alloc::Global;

/// WRITE: writes bytes to a regular file (RFC 1094, section 2.2.9).
pub(crate) fn write(
    alloc: Global,
    tree: &mut PlainTree,
    handle: &Handle,
    offset: u32,
    bytes: &[u8],
    cred: &Cred,
    now: Stamp,
) -> Result<Response, Stop>
    requires good { IsGood tree.old }
    requires few { length bytes.now ≤ 8192 }
    ensures meets { (begin total start : ℕ) → Ends tree.old (respond tree.old (Write handle.now begin offset total bytes.now) cred.now now start) tree.new result }
    ensures err { OnErr result (tree.new ≡ tree.old) }
{
    let number = number_at(handle);
    let file = may_write(tree, handle, offset, bytes, cred)?;
    if bytes.is_empty() {
        return Ok(Response::told(Answer::Attr(file.fattr(number))));
    }
    check_limits(tree, file.change, rise(file, offset, bytes))?;
    let file = take_out(alloc, tree, number);
    match with_bytes(alloc, file, offset, bytes, now) {
        Ok(file) => Ok(put_changed(tree, number, file, now)),
        Err(file) => {
            put_back(tree, number, file);
            Err(Stop::NoMemory)
        }
    }
}
