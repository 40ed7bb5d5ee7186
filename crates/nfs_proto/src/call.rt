use crate::handle::Handle;
use crate::sattr::Sattr;
use sfs_base::Bytes;

/// A call of one of the eighteen procedures, with its arguments (RFC 1094, section 2.2).
#[derive(Debug, PartialEq, Eq, Drop)]
pub enum Call {
    /// NULL does nothing (RFC 1094, section 2.2.1).
    Null,
    /// GETATTR tells of a file (RFC 1094, section 2.2.2).
    GetAttr {
        file: Handle,
    },
    /// SETATTR sets what a client may set of a file (RFC 1094, section 2.2.3).
    SetAttr {
        file: Handle,
        set: Sattr,
    },
    /// ROOT is no longer used, and does nothing (RFC 1094, section 2.2.4).
    Root,
    /// LOOKUP finds a name in a directory (RFC 1094, section 2.2.5).
    Lookup {
        dir: Handle,
        name: Bytes,
    },
    /// READLINK reads the path in a symbolic link (RFC 1094, section 2.2.6).
    ReadLink {
        file: Handle,
    },
    /// READ reads bytes of a file; `total` is unused (RFC 1094, section 2.2.7).
    Read {
        file: Handle,
        offset: u32,
        count: u32,
        total: u32,
    },
    /// WRITECACHE is not used yet, and does nothing (RFC 1094, section 2.2.8).
    WriteCache,
    /// WRITE writes bytes to a file; `begin` and `total` are unused (RFC 1094, section 2.2.9).
    Write {
        file: Handle,
        begin: u32,
        offset: u32,
        total: u32,
        bytes: Bytes,
    },
    /// CREATE makes a regular file (RFC 1094, section 2.2.10).
    Create {
        dir: Handle,
        name: Bytes,
        set: Sattr,
    },
    /// REMOVE takes a name of a file away (RFC 1094, section 2.2.11).
    Remove {
        dir: Handle,
        name: Bytes,
    },
    /// RENAME moves a name (RFC 1094, section 2.2.12).
    Rename {
        from: Handle,
        from_name: Bytes,
        to: Handle,
        to_name: Bytes,
    },
    /// LINK gives a file a further name (RFC 1094, section 2.2.13).
    Link {
        file: Handle,
        dir: Handle,
        name: Bytes,
    },
    /// SYMLINK makes a symbolic link (RFC 1094, section 2.2.14).
    SymLink {
        dir: Handle,
        name: Bytes,
        path: Bytes,
        set: Sattr,
    },
    /// MKDIR makes a directory (RFC 1094, section 2.2.15).
    MakeDir {
        dir: Handle,
        name: Bytes,
        set: Sattr,
    },
    /// RMDIR removes an empty directory (RFC 1094, section 2.2.16).
    RemoveDir {
        dir: Handle,
        name: Bytes,
    },
    /// READDIR lists names of a directory (RFC 1094, section 2.2.17).
    ReadDir {
        dir: Handle,
        cookie: u32,
        count: u32,
    },
    /// STATFS tells of the file system (RFC 1094, section 2.2.18).
    StatFs {
        file: Handle,
    },
}
