ghost use Rattle.std.specs.Prelude.{◌≡◌, IfOk};
ghost use Rattle.fs_rules.specs.Handle.{number_in};
ghost use Rattle.plan_rules.specs.Orders.{handle_steps};
ghost use Rattle.plan_looks.specs.Goes.{Goes};
ghost use Rattle.read_laws.specs.Answers.{fattr_by, get_attr_by, ready, type_bits_by};

use fs_layout::{Attrs, BLOCK_BYTES};
use mini_tx::Items;
use nfs_proto::{Answer, Fattr, Handle, Stamp};
use node_cache::Held;
use plan_forms::{AnswerForm, Reading};
use plan_looks::{Looks, Stop, look_file};
use std::alloc::Global;

/// What a client is told of the file system that all files lie on.
const FSID: u32 = 1;

/// How many of the units in which a client is told of blocks a block has.
const UNITS_PER_BLOCK: u32 = 8;

/// GETATTR: what a client is told of the file (RFC 1094, section 2.2.2).
pub fn get_attr(
    alloc: Global,
    held: &Held,
    looks: &mut Looks,
    file: &Handle,
) -> Result<Reading, Stop>
    ensures goes { Goes held.now (handle_steps held.now file.now.0) looks.old looks.new result }
    ensures gives { IfOk result (λ r. r ≡ get_attr_by held.now (number_in file.now.0)) }
{
    let live = look_file(held, looks, file)?;
    Ok(ready(alloc, Answer::Attr(fattr_of(live.number, live.attrs))))
}

/// An answer that reads nothing.
pub fn ready(alloc: Global, answer: Answer) -> Reading
    ensures { result ≡ ready answer }
{
    Reading {
        items: Items::new(alloc),
        form: AnswerForm::Ready(answer),
    }
}

/// What a client is told of the file with this number and record (RFC 1094, section 2.3.5).
pub fn fattr_of(number: u32, attrs: Attrs) -> Fattr
    ensures { result ≡ fattr_by number attrs }
{
    Fattr {
        kind: attrs.kind,
        mode: type_bits(attrs.kind).saturating_add(attrs.mode),
        links: attrs.links,
        uid: attrs.uid,
        gid: attrs.gid,
        size: attrs.size,
        block_size: BLOCK_BYTES as u32,
        rdev: 0,
        blocks: attrs.used.saturating_mul(UNITS_PER_BLOCK),
        fsid: FSID,
        fileid: number,
        atime: Stamp {
            sec: attrs.atime_sec,
            usec: attrs.atime_usec,
        },
        mtime: Stamp {
            sec: attrs.mtime_sec,
            usec: attrs.mtime_usec,
        },
        ctime: Stamp {
            sec: attrs.ctime_sec,
            usec: attrs.ctime_usec,
        },
    }
}

// The bits of a kind in a mode (RFC 1094, section 2.3.5).
fn type_bits(kind: u32) -> u32
    ensures { result ≡ type_bits_by kind }
{
    if kind == Attrs::REGULAR {
        0o100000
    } else if kind == Attrs::DIRECTORY {
        0o040000
    } else {
        0o120000
    }
}
