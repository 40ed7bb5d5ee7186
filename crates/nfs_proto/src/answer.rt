use crate::dir_entry::DirEntries;
use crate::fattr::Fattr;
use crate::handle::Handle;
use sfs_base::Bytes;

/// What a call is answered (RFC 1094, section 2.2).
#[derive(Debug, PartialEq, Eq, Drop)]
pub enum Answer {
    /// Nothing: the result of NULL, ROOT and WRITECACHE.
    Empty,
    /// A status other than OK (RFC 1094, section 2.3.1).
    Fault(u32),
    /// It is done, and there is nothing to tell.
    Plain,
    /// What a client is told of the file.
    Attr(Fattr),
    /// The file of a name, and what a client is told of it.
    Found {
        file: Handle,
        attr: Fattr,
    },
    /// The path in a symbolic link.
    Path(Bytes),
    /// What a client is told of the file, and the bytes that were read.
    Part {
        attr: Fattr,
        bytes: Bytes,
    },
    /// Names of a directory, and whether these are the last.
    Names {
        entries: DirEntries,
        eof: bool,
    },
    /// The best size of a transfer, the size of a block, and the numbers of all blocks, of those that are
    /// free and of those that a client may use.
    Space {
        tsize: u32,
        bsize: u32,
        blocks: u32,
        bfree: u32,
        bavail: u32,
    },
}
