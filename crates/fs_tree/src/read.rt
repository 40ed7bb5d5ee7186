ghost use Rattle.std.specs.Prelude.{◌≡◌, [], IfOk};
ghost use Rattle.nfs_proto.specs.declared.answer.Answer.TheVariants.{Attr};
ghost use Rattle.fs_rules.specs.Good.{IsGood};
ghost use Rattle.fs_rules.specs.File.{fattr_of, blocks_of};
ghost use Rattle.fs_rules.specs.Statuses.{first_failure};
ghost use Rattle.fs_rules.specs.Reading.{space_answer, read_checks, read_answer, read_link_checks, read_link_answer};
ghost use Rattle.fs_rules.specs.Contents.{part};
ghost use Rattle.fs_decisions.specs.Steps.{Fits};
ghost use Rattle.fs_tree.specs.Reading.{unless, answer_about};

use crate::space::{MAX_DATA_BYTES, space};
use fs_checks::{Facts, Status};
use fs_content::read_part;
use fs_decisions::file_of;
use fs_rules::{
    Answer, Blocks, Bytes, Content, Cred, File, Handle, NoMemory, PlainTree, number_at,
};
use std::alloc::Global;

/// GETATTR: what a client is told of the file (RFC 1094, section 2.2.2).
pub(crate) fn get_attr(tree: &PlainTree, handle: &Handle) -> Answer
    requires { IsGood tree.now }
    ensures { result ≡ answer_about tree.now handle.now.0 (λ n f. []) (λ n f. Attr (fattr_of n f)) }
{
    match file_of(tree, handle) {
        Some(file) => Answer::Attr(file.fattr(number_at(handle))),
        None => Answer::Fault(Status::STALE.0),
    }
}

/// STATFS: how many blocks there are, and how many are free (RFC 1094, section 2.2.18).
#[tactic(auto, unfolding(fs_rules::specs::Statuses::first_failure))]
pub(crate) fn stat_fs(tree: &PlainTree, handle: &Handle) -> Answer
    requires { IsGood tree.now }
    ensures { result ≡ answer_about tree.now handle.now.0 (λ n f. []) (λ n f. space_answer tree.now) }
{
    match file_of(tree, handle) {
        Some(_) => space(tree),
        None => Answer::Fault(Status::STALE.0),
    }
}

/// READ: bytes of a regular file (RFC 1094, section 2.2.7).
pub(crate) fn read(
    alloc: Global,
    tree: &PlainTree,
    handle: &Handle,
    offset: u32,
    count: u32,
    cred: &Cred,
) -> Result<Answer, NoMemory>
    requires { IsGood tree.now }
    ensures { IfOk result (λ answer. answer ≡ answer_about tree.now handle.now.0 (λ n f. read_checks f cred.now) (λ n f. read_answer n f offset count)) }
{
    let Some(file) = file_of(tree, handle) else {
        return Ok(Answer::Fault(Status::STALE.0));
    };
    match Facts::of_file(file).check_read(cred) {
        Ok(()) => part_of(alloc, number_at(handle), file, offset, count),
        Err(status) => Ok(Answer::Fault(status.0)),
    }
}

// The attributes of a file, and a part of its bytes.
#[tactic(auto, unfolding(fs_rules::specs::Reading::read_answer))]
fn part_of(
    alloc: Global,
    number: u32,
    file: &File,
    offset: u32,
    count: u32,
) -> Result<Answer, NoMemory>
    requires { Fits file.now }
    ensures { IfOk result (λ answer. answer ≡ read_answer number file.now offset count) }
{
    let left = file.size.saturating_sub(offset);
    let bytes = bytes_of(
        alloc,
        &file.content,
        offset,
        count.min(MAX_DATA_BYTES.min(left)),
    )?;
    Ok(Answer::Part {
        attr: file.fattr(number),
        bytes,
    })
}

// A part of the bytes of a file; a directory has none.
fn bytes_of(alloc: Global, content: &Content, offset: u32, count: u32) -> Result<Bytes, NoMemory>
    ensures { IfOk result (λ bytes. bytes ≡ part (blocks_of content.now) offset count) }
{
    match content {
        Content::Regular(blocks) | Content::Link(blocks) => read_part(alloc, blocks, offset, count),
        Content::Directory { .. } => read_part(alloc, &Blocks::new(alloc), offset, count),
    }
}

/// READLINK: the path in a symbolic link (RFC 1094, section 2.2.6).
pub(crate) fn read_link(
    alloc: Global,
    tree: &PlainTree,
    handle: &Handle,
) -> Result<Answer, NoMemory>
    requires { IsGood tree.now }
    ensures { IfOk result (λ answer. answer ≡ answer_about tree.now handle.now.0 (λ n f. read_link_checks f) (λ n f. read_link_answer f)) }
{
    let Some(file) = file_of(tree, handle) else {
        return Ok(Answer::Fault(Status::STALE.0));
    };
    path_of(alloc, file)
}

// The path of a link; another file has none.
#[tactic(auto, unfolding(fs_rules::specs::Statuses::first_failure, fs_rules::specs::Reading::read_link_answer))]
fn path_of(alloc: Global, file: &File) -> Result<Answer, NoMemory>
    ensures { IfOk result (λ answer. answer ≡ unless (first_failure (read_link_checks file.now)) (read_link_answer file.now)) }
{
    match &file.content {
        Content::Link(_) => Ok(Answer::Path(bytes_of(alloc, &file.content, 0, file.size)?)),
        _ => Ok(Answer::Fault(Status::NXIO.0)),
    }
}
