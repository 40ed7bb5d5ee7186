ghost use Rattle.std.specs.Prelude.{◌≡◌, ℕ, IfOk, OnErr};
ghost use Rattle.nfs_proto.specs.Arguments.{IsFit};
ghost use Rattle.fs_rules.specs.Good.{IsGood};
ghost use Rattle.fs_rules.specs.Respond.{respond, IsPick};
ghost use Rattle.fs_tree.specs.Meets.{Meets, Ends};

use crate::create::create;
use crate::link::link;
use crate::lookup::{lookup, read_dir};
use crate::make_dir::make_dir;
use crate::read::{get_attr, read, read_link, stat_fs};
use crate::remove::remove;
use crate::rename::rename;
use crate::response::Response;
use crate::set_attr::set_attr;
use crate::stop::Stop;
use crate::sym_link::sym_link;
use crate::write::write;
use fs_checks::Removal;
use fs_rules::{Answer, Call, Cred, NoMemory, PlainTree, Stamp};
use std::alloc::Global;

/// Carries out a call over a plain tree, and answers it, also where it is refused. On [`NoMemory`] the tree is
/// as before.
pub(crate) fn carry_out(
    alloc: Global,
    tree: &mut PlainTree,
    call: &Call,
    cred: &Cred,
    now: Stamp,
    pick: Option<u32>,
) -> Result<Response, NoMemory>
    requires fits { IsFit call.now }
    requires good { IsGood tree.old }
    ensures meets { (start : ℕ) → IsPick tree.old call.now cred.now now start pick
        → IfOk result (Meets tree.old (respond tree.old call.now cred.now now start) tree.new) }
    ensures err { OnErr result (tree.new ≡ tree.old) }
{
    match dispatch(alloc, tree, call, cred, now, pick) {
        Ok(response) => Ok(response),
        Err(Stop::Refused(status)) => Ok(Response::refused(status)),
        Err(Stop::NoMemory) => Err(NoMemory),
    }
}

// Carries out a call, procedure by procedure.
fn dispatch(
    alloc: Global,
    tree: &mut PlainTree,
    call: &Call,
    cred: &Cred,
    now: Stamp,
    pick: Option<u32>,
) -> Result<Response, Stop>
    requires fits { IsFit call.now }
    requires good { IsGood tree.old }
    ensures meets { (start : ℕ) → IsPick tree.old call.now cred.now now start pick
        → Ends tree.old (respond tree.old call.now cred.now now start) tree.new result }
    ensures err { OnErr result (tree.new ≡ tree.old) }
{
    match call {
        Call::Null | Call::Root | Call::WriteCache => Ok(Response::told(Answer::Empty)),
        Call::GetAttr { file } => Ok(Response::told(get_attr(tree, file))),
        Call::SetAttr { file, set } => set_attr(alloc, tree, file, set, cred, now),
        Call::Lookup { dir, name } => Ok(Response::told(lookup(tree, dir, name.as_slice(), cred))),
        Call::ReadLink { file } => Ok(Response::told(read_link(alloc, tree, file)?)),
        Call::Read {
            file,
            offset,
            count,
            ..
        } => Ok(Response::told(read(alloc, tree, file, *offset, *count, cred)?)),
        Call::Write {
            file,
            offset,
            bytes,
            ..
        } => write(alloc, tree, file, *offset, bytes.as_slice(), cred, now),
        Call::ReadDir { dir, cookie, count } => {
            Ok(Response::told(read_dir(alloc, tree, dir, *cookie, *count, cred)?))
        }
        Call::StatFs { file } => Ok(Response::told(stat_fs(tree, file))),
        Call::Create { dir, name, set } => {
            create(alloc, tree, dir, name.as_slice(), set, cred, now, pick)
        }
        Call::MakeDir { dir, name, set } => {
            make_dir(alloc, tree, dir, name.as_slice(), set, cred, now, pick)
        }
        Call::SymLink {
            dir,
            name,
            path,
            ..
        } => sym_link(
            alloc,
            tree,
            dir,
            name.as_slice(),
            path.as_slice(),
            cred,
            now,
            pick,
        ),
        Call::Link { file, dir, name } => {
            link(alloc, tree, file, dir, name.as_slice(), cred, now)
        }
        Call::Remove { dir, name } => {
            remove(alloc, tree, Removal::File, dir, name.as_slice(), cred, now)
        }
        Call::RemoveDir { dir, name } => {
            remove(
                alloc,
                tree,
                Removal::Directory,
                dir,
                name.as_slice(),
                cred,
                now,
            )
        }
        Call::Rename {
            from,
            from_name,
            to,
            to_name,
        } => rename(
            alloc,
            tree,
            from,
            from_name.as_slice(),
            to,
            to_name.as_slice(),
            cred,
            now,
        ),
    }
}
