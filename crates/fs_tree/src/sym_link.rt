ghost use Rattle.std.specs.Prelude.{◌≡◌, ℕ, ◌≤◌, length, OnErr, IfOk};
ghost use Rattle.nfs_proto.specs.declared.call.Call.TheVariants.{SymLink};
ghost use Rattle.nfs_proto.specs.declared.sattr.Sattr.{Sattr};
ghost use Rattle.fs_rules.specs.Good.{IsGood};
ghost use Rattle.fs_rules.specs.Respond.{respond, IsPick};
ghost use Rattle.fs_tree.specs.Meets.{Ends};
ghost use Rattle.fs_tree.specs.NewFiles.{link_of};

use crate::new_file::{NewFile, make_new};
use crate::response::Response;
use crate::stop::Stop;
use fs_checks::{Status, nothing_set};
use fs_content::write_bytes;
use fs_decisions::{directory_of, is_taken};
use fs_rules::{Blocks, Content, Cred, Handle, NoMemory, PlainTree, Stamp, number_at};
use std::alloc::Global;

/// The mode of a symbolic link: all may do everything with it.
const LINK_MODE: u32 = 0o777;

/// SYMLINK: makes a symbolic link, whose attributes are not the caller's to set (RFC 1094, section 2.2.14).
pub(crate) fn sym_link(
    alloc: Global,
    tree: &mut PlainTree,
    dir: &Handle,
    name: &[u8],
    path: &[u8],
    cred: &Cred,
    now: Stamp,
    pick: Option<u32>,
) -> Result<Response, Stop>
    requires good { IsGood tree.old }
    requires few { length path.now ≤ 1024 }
    ensures meets { (set : Sattr) (start : ℕ) → IsPick tree.old (SymLink dir.now name.now path.now set) cred.now now start pick
        → Ends tree.old (respond tree.old (SymLink dir.now name.now path.now set) cred.now now start) tree.new result }
    ensures err { OnErr result (tree.new ≡ tree.old) }
{
    let number = number_at(dir);
    let parent = directory_of(tree, dir, name, Status::ACCES, cred)?;
    if is_taken(&parent.content, name) {
        return Err(Stop::Refused(Status::EXIST));
    }
    if path.is_empty() {
        return Err(Stop::Refused(Status::NOENT));
    }
    let new = new_link(alloc, path)?;
    make_new(alloc, tree, number, name, new, cred, now, pick)
}

// A symbolic link, whose first block holds the path.
fn new_link(alloc: Global, path: &[u8]) -> Result<NewFile, NoMemory>
    requires { length path.now ≤ 1024 }
    ensures { IfOk result (λ new. new ≡ link_of path.now) }
{
    let mut blocks = Blocks::new(alloc);
    write_bytes(alloc, &mut blocks, 0, path)?;
    Ok(NewFile {
        content: Content::Link(blocks),
        mode: LINK_MODE,
        links: 1,
        size: path.len() as u32,
        set: nothing_set(),
        gained: 0,
        is_told: false,
    })
}
