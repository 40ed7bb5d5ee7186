/// Why a call is refused: a status of RFC 1094, section 2.3.1.
#[derive(Clone, Copy, Debug, PartialEq, Eq)]
pub struct Status(pub u32);

impl Status {
    /// The caller may not do this.
    pub const PERM: Status = Status(1);

    /// No file has this name.
    pub const NOENT: Status = Status(2);

    /// A directory would be moved below itself.
    pub const IO: Status = Status(5);

    /// The file is no link, or its size cannot be set.
    pub const NXIO: Status = Status(6);

    /// The caller has not the right to do this.
    pub const ACCES: Status = Status(13);

    /// The name is there, or is none that a file can get.
    pub const EXIST: Status = Status(17);

    /// A directory is wanted.
    pub const NOTDIR: Status = Status(20);

    /// The file is a directory.
    pub const ISDIR: Status = Status(21);

    /// The file would be too large, or be changed too often.
    pub const FBIG: Status = Status(27);

    /// No block, no slot, no number or no link is left.
    pub const NOSPC: Status = Status(28);

    /// The name is too long.
    pub const NAMETOOLONG: Status = Status(63);

    /// The directory has a name in use.
    pub const NOTEMPTY: Status = Status(66);

    /// The handle is of no file that is there.
    pub const STALE: Status = Status(70);
}
