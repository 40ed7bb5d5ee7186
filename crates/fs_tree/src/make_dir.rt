ghost use Rattle.std.specs.Prelude.{◌≡◌, ℕ, OnErr};
ghost use Rattle.nfs_proto.specs.declared.call.Call.TheVariants.{MakeDir};
ghost use Rattle.fs_rules.specs.Good.{IsGood};
ghost use Rattle.fs_rules.specs.Respond.{respond, IsPick};
ghost use Rattle.fs_tree.specs.Meets.{Ends};
ghost use Rattle.fs_tree.specs.NewFiles.{directory_of};

use crate::new_file::{NewFile, make_new};
use crate::response::Response;
use crate::stop::Stop;
use fs_checks::{Status, chosen};
use fs_decisions::{directory_of, is_taken};
use fs_rules::{Content, Cred, Handle, PlainTree, Sattr, Slots, Stamp, number_at};
use std::alloc::Global;

/// The mode of a new directory where none is set.
const DIRECTORY_MODE: u32 = 0o755;

/// MKDIR: makes a directory (RFC 1094, section 2.2.15).
pub(crate) fn make_dir(
    alloc: Global,
    tree: &mut PlainTree,
    dir: &Handle,
    name: &[u8],
    set: &Sattr,
    cred: &Cred,
    now: Stamp,
    pick: Option<u32>,
) -> Result<Response, Stop>
    requires { IsGood tree.old }
    ensures meets { (start : ℕ) → IsPick tree.old (MakeDir dir.now name.now set.now) cred.now now start pick
        → Ends tree.old (respond tree.old (MakeDir dir.now name.now set.now) cred.now now start) tree.new result }
    ensures err { OnErr result (tree.new ≡ tree.old) }
{
    let number = number_at(dir);
    let parent = directory_of(tree, dir, name, Status::ACCES, cred)?;
    if is_taken(&parent.content, name) {
        return Err(Stop::Refused(Status::EXIST));
    }
    let new = new_directory(alloc, number, set);
    make_new(alloc, tree, number, name, new, cred, now, pick)
}

// A directory with no slots, and a link more for its parent.
fn new_directory(alloc: Global, parent: u32, set: &Sattr) -> NewFile
    ensures { result ≡ directory_of parent set.now }
{
    NewFile {
        content: Content::Directory {
            slots: Slots::new(alloc),
            parent,
        },
        mode: chosen(set.mode, DIRECTORY_MODE),
        links: 2,
        size: 0,
        set: *set,
        gained: 1,
        is_told: true,
    }
}
