ghost use Rattle.std.specs.Prelude.{◌≡◌, ℕ, ◌-◌, ◌<◌, OnErr};
ghost use Rattle.std.specs.FinMap as map;
ghost use Rattle.nfs_proto.specs.declared.call.Call.TheVariants.{Create};
ghost use Rattle.fs_rules.specs.Good.{IsGood};
ghost use Rattle.fs_rules.specs.Respond.{respond, IsPick};
ghost use Rattle.fs_tree.specs.Creating.{existing_of};
ghost use Rattle.fs_tree.specs.Meets.{Ends};
ghost use Rattle.fs_tree.specs.NewFiles.{regular_of};

use crate::change::put_file;
use crate::lookup::found_at;
use crate::new_file::{NewFile, make_new};
use crate::response::{Change, Response};
use crate::stop::Stop;
use fs_checks::{Facts, Status, check_new, chosen, is_dots, is_set, size_alone};
use fs_decisions::{check_limits, directory_of, file_at, number_named};
use fs_edits::{take_out, with_attributes};
use fs_rules::{Blocks, Content, Cred, Handle, PlainTree, Sattr, Stamp, number_at};
use std::alloc::Global;

/// The mode of a new regular file where none is set.
const REGULAR_MODE: u32 = 0o100644;

/// CREATE: makes a regular file, or sets the size of the one that has the name (RFC 1094, section 2.2.10).
pub(crate) fn create(
    alloc: Global,
    tree: &mut PlainTree,
    dir: &Handle,
    name: &[u8],
    set: &Sattr,
    cred: &Cred,
    now: Stamp,
    pick: Option<u32>,
) -> Result<Response, Stop>
    requires { IsGood tree.old }
    ensures meets { (start : ℕ) → IsPick tree.old (Create dir.now name.now set.now) cred.now now start pick
        → Ends tree.old (respond tree.old (Create dir.now name.now set.now) cred.now now start) tree.new result }
    ensures err { OnErr result (tree.new ≡ tree.old) }
{
    let number = number_at(dir);
    let parent = directory_of(tree, dir, name, Status::ACCES, cred)?;
    if is_dots(name) {
        return Err(Stop::Refused(Status::EXIST));
    }
    if let Some(there) = number_named(&parent.content, name) {
        return set_size(alloc, tree, there, set, cred, now);
    }
    check_new(set)?;
    let new = new_regular(alloc, set);
    make_new(alloc, tree, number, name, new, cred, now, pick)
}

// A regular file with no stored block.
fn new_regular(alloc: Global, set: &Sattr) -> NewFile
    ensures { result ≡ regular_of set.now }
{
    NewFile {
        content: Content::Regular(Blocks::new(alloc)),
        mode: chosen(set.mode, REGULAR_MODE),
        links: 1,
        size: chosen(set.size, 0),
        set: *set,
        gained: 0,
        is_told: true,
    }
}

// CREATE where a file has the name: of a regular one the size alone is set, where one is.
fn set_size(
    alloc: Global,
    tree: &mut PlainTree,
    number: u32,
    set: &Sattr,
    cred: &Cred,
    now: Stamp,
) -> Result<Response, Stop>
    requires { IsGood tree.old }
    ensures meets { (start : ℕ) → Ends tree.old (existing_of tree.old number set.now cred.now now start) tree.new result }
    ensures err { OnErr result (tree.new ≡ tree.old) }
{
    let Some(file) = file_at(tree, number) else {
        return Err(Stop::Refused(Status::STALE));
    };
    Facts::of_file(file).check_existing(set, cred)?;
    if !is_set(set.size) {
        return Ok(Response::told(found_at(tree, number)));
    }
    check_limits(tree, file.change, 0)?;
    let file = take_out(alloc, tree, number);
    let file = with_attributes(alloc, file, size_alone(set), now);
    let generation = file.generation;
    let attr = put_file(tree, number, file, now);
    let change = Change { made: None };
    Ok(Response::found(number, generation, attr, change))
}
