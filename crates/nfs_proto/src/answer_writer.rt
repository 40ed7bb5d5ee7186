ghost use Rattle.std.specs.Prelude.{◌≡◌, ◌≤◌, ◌++◌, length, IfOk, OnOk};
ghost use Rattle.std.specs.List.{AllByRecursion};
ghost use Rattle.nfs_proto.specs.Answers.{IsFitAnswer, answer_spelling, entries_spelling};

use crate::answer::Answer;
use crate::dir_entry::DirEntry;
use crate::fattr::Fattr;
use crate::handle::Handle;
use crate::limits::{MAX_DATA_BYTES, MAX_PATH_BYTES};
use crate::status::OK;
use sfs_base::NoMemory;
use sfs_xdr::{Codec, Text, Writer, write_words};
use std::alloc::Global;

type Path = Text<MAX_PATH_BYTES>;

type Data = Text<MAX_DATA_BYTES>;

/// The most bytes of a result beside a path, data and names: a status, a handle, what is told of a file, and
/// a length with what fills up.
const MAX_FIXED_BYTES: usize = 112;

/// A result, spelled (RFC 1094, section 2.2). Its names and path have at most 1,024 bytes and its data at
/// most [`MAX_DATA_BYTES`], and a fault is a status other than OK ([`is_fault`](crate::is_fault)).
pub fn write_answer(alloc: Global, answer: &Answer) -> Result<Vec<u8>, NoMemory>
    requires { IsFitAnswer answer.now }
    ensures { IfOk result (λ bytes. bytes.items ≡ answer_spelling answer.now) }
{
    let mut writer = Writer::with_room(alloc, room_for(answer))?;
    write_result(answer, &mut writer)?;
    Ok(writer.finish())
}

// Room for a result: all but names of a directory fit into it.
fn room_for(answer: &Answer) -> usize {
    let data = match answer {
        Answer::Path(bytes) | Answer::Part { bytes, .. } => bytes.len(),
        _ => 0,
    };
    data.saturating_add(MAX_FIXED_BYTES)
}

// Writes a result.
fn write_result(answer: &Answer, writer: &mut Writer) -> Result<(), NoMemory>
    requires { IsFitAnswer answer.now }
    ensures { OnOk result (writer.new ≡ writer.old ++ answer_spelling answer.now) }
{
    match answer {
        Answer::Empty => Ok(()),
        Answer::Fault(status) => writer.u32(*status),
        Answer::Plain => writer.u32(OK),
        Answer::Attr(attr) => {
            writer.u32(OK)?;
            Fattr::write(attr, writer)
        }
        Answer::Found { file, attr } => {
            writer.u32(OK)?;
            Handle::write(file, writer)?;
            Fattr::write(attr, writer)
        }
        Answer::Path(path) => {
            writer.u32(OK)?;
            Path::write(path, writer)
        }
        Answer::Part { attr, bytes } => {
            writer.u32(OK)?;
            Fattr::write(attr, writer)?;
            Data::write(bytes, writer)
        }
        Answer::Names { entries, eof } => {
            writer.u32(OK)?;
            write_entries(entries.as_slice(), writer)?;
            writer.boolean(*eof)
        }
        Answer::Space {
            tsize,
            bsize,
            blocks,
            bfree,
            bavail,
        } => write_words(writer, &[OK, *tsize, *bsize, *blocks, *bfree, *bavail]),
    }
}

// Writes names of a directory, each behind a true, and a false behind the last.
fn write_entries(entries: &[DirEntry], writer: &mut Writer) -> Result<(), NoMemory>
    requires { AllByRecursion (λ e. length e.name ≤ 1024) entries.now }
    ensures { OnOk result (writer.new ≡ writer.old ++ entries_spelling entries.now) }
{
    for entry in entries {
        writer.boolean(true)?;
        DirEntry::write(entry, writer)?;
    }
    writer.boolean(false)
}
