ghost use Rattle.std.specs.Prelude.{◌≡◌, ◌≤◌, length, Some, None, IfOk, IfErr, OnOk};
ghost use Rattle.fs_rules.specs.Good.{IsGood};
ghost use Rattle.fs_rules.specs.File.{parent_of, slots_of};
ghost use Rattle.fs_rules.specs.Statuses.{first_failure};
ghost use Rattle.fs_rules.specs.Reading.{found_at, target, lookup_answer, read_dir_answer};
ghost use Rattle.fs_tree.specs.Reading.{answer_about, lookup_row};
ghost use Rattle.fs_checks.specs.Rows.{read_dir_row};

use fs_checks::{Facts, Status, is_dot, is_dot_dot};
use fs_content::list_names;
use fs_decisions::{file_at, file_of, number_named, parent_of};
use fs_rules::{
    Answer, Content, Cred, File, Handle, NoMemory, PlainTree, SEARCH, Slots, handle_of, number_at,
};
use std::alloc::Global;

/// LOOKUP: the file that a name names (RFC 1094, section 2.2.5).
pub(crate) fn lookup(tree: &PlainTree, handle: &Handle, name: &[u8], cred: &Cred) -> Answer
    requires { IsGood tree.now }
    ensures { result ≡ answer_about tree.now handle.now.0 (λ n d. lookup_row n d name.now cred.now) (λ n d. lookup_answer tree.now n d name.now) }
{
    let Some(dir) = file_of(tree, handle) else {
        return Answer::Fault(Status::STALE.0);
    };
    match looked_up(number_at(handle), dir, name, cred) {
        Ok(number) => found_at(tree, number),
        Err(status) => Answer::Fault(status.0),
    }
}

// The number of the file that a name names in a file, where the checks of LOOKUP pass.
fn looked_up(number: u32, dir: &File, name: &[u8], cred: &Cred) -> Result<u32, Status>
    ensures target { IfOk result (λ m. target number dir.now name.now ≡ Some m) }
    ensures passes { OnOk result (first_failure (lookup_row number dir.now name.now cred.now) ≡ None) }
    ensures fails { IfErr result (λ s. first_failure (lookup_row number dir.now name.now cred.now) ≡ Some s.0) }
{
    Facts::of_file(dir).check_named(name, Status::NOENT, cred, SEARCH)?;
    match target(number, dir, name) {
        Some(number) => Ok(number),
        None => Err(Status::NOENT),
    }
}

/// The file with a number, and what a client is told of it.
pub(crate) fn found_at(tree: &PlainTree, number: u32) -> Answer
    requires { IsGood tree.now }
    ensures { result ≡ found_at tree.now number }
{
    match file_at(tree, number) {
        Some(file) => Answer::Found {
            file: handle_of(number, file.generation),
            attr: file.fattr(number),
        },
        None => Answer::Fault(Status::STALE.0),
    }
}

/// READDIR: names of a directory behind a cookie (RFC 1094, section 2.2.17).
pub(crate) fn read_dir(
    alloc: Global,
    tree: &PlainTree,
    handle: &Handle,
    cookie: u32,
    count: u32,
    cred: &Cred,
) -> Result<Answer, NoMemory>
    requires { IsGood tree.now }
    ensures { IfOk result (λ answer. answer ≡ answer_about tree.now handle.now.0 (λ n d. read_dir_row d cred.now) (λ n d. read_dir_answer n d cookie count)) }
{
    let Some(dir) = file_of(tree, handle) else {
        return Ok(Answer::Fault(Status::STALE.0));
    };
    match Facts::of_file(dir).check_list(cred) {
        Ok(()) => names_of(alloc, number_at(handle), dir, cookie, count),
        Err(status) => Ok(Answer::Fault(status.0)),
    }
}

// The names of a directory; another file has none.
#[tactic(auto, unfolding(fs_rules::specs::Reading::read_dir_answer))]
fn names_of(
    alloc: Global,
    number: u32,
    dir: &File,
    cookie: u32,
    count: u32,
) -> Result<Answer, NoMemory>
    requires { length (slots_of dir.now.content) ≤ 7650 }
    ensures { IfOk result (λ answer. answer ≡ read_dir_answer number dir.now cookie count) }
{
    match &dir.content {
        Content::Directory { slots, parent } => {
            list_names(alloc, number, *parent, slots, cookie, count)
        }
        _ => list_names(alloc, number, number, &Slots::new(alloc), cookie, count),
    }
}

// The number of the file that a name names in a directory: "." is itself, and ".." its parent.
#[tactic(auto, unfolding(fs_rules::specs::Reading::target))]
fn target(number: u32, dir: &File, name: &[u8]) -> Option<u32>
    ensures { result ≡ target number dir.now name.now }
{
    if is_dot(name) {
        return Some(number);
    }
    if is_dot_dot(name) {
        return parent_of(&dir.content);
    }
    number_named(&dir.content, name)
}
