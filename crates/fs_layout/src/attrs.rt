ghost use Rattle.std.specs.Prelude.{◌≡◌, IsTrue, ◌↔◌};

use crate::reference::Reference;

/// The fields of an inode record.
#[derive(Clone, Copy, Debug, PartialEq, Eq)]
pub struct Attrs {
    /// [`Attrs::FREE`], or the number of the file's kind (RFC 1094, section 2.3.2).
    pub kind: u32,
    /// The 12 bits of its mode that are no type.
    pub mode: u32,
    pub links: u32,
    pub uid: u32,
    pub gid: u32,
    /// Its bytes.
    pub size: u32,
    /// How often the number was used for a file.
    pub generation: u32,
    /// The blocks of the cluster that it uses.
    pub used: u32,
    /// How often the number's file was changed.
    pub change: u64,
    pub atime_sec: u32,
    pub atime_usec: u32,
    pub mtime_sec: u32,
    pub mtime_usec: u32,
    pub ctime_sec: u32,
    pub ctime_usec: u32,
    /// Its first chaining block.
    pub first: Option<Reference>,
    /// The number of its chaining blocks.
    pub chains: u32,
    /// The number of the directory in which a directory's name lies; else 0.
    pub parent: u32,
    /// How many names a directory has; else 0.
    pub names: u32,
}

/// One more than the greatest mode.
const MODE_END: u32 = 0o10000;

impl Attrs {
    ghost use Rattle.fs_layout.specs.Inodes.{IsInode, IsKind, free_inode};

    /// The kind of a record that belongs to no file.
    pub const FREE: u32 = 0;

    /// The kind of a regular file (RFC 1094, section 2.3.2).
    pub const REGULAR: u32 = 1;

    /// The kind of a directory (RFC 1094, section 2.3.2).
    pub const DIRECTORY: u32 = 2;

    /// The kind of a symbolic link (RFC 1094, section 2.3.2).
    pub const LINK: u32 = 5;

    /// A record that belongs to no file: it keeps the generation and the change number, and zeros.
    pub fn free(generation: u32, change: u64) -> Attrs
        ensures { result ≡ free_inode generation change }
    {
        Attrs {
            kind: Attrs::FREE,
            mode: 0,
            links: 0,
            uid: 0,
            gid: 0,
            size: 0,
            generation,
            used: 0,
            change,
            atime_sec: 0,
            atime_usec: 0,
            mtime_sec: 0,
            mtime_usec: 0,
            ctime_sec: 0,
            ctime_usec: 0,
            first: None,
            chains: 0,
            parent: 0,
            names: 0,
        }
    }

    /// Whether an inode record may have these fields (`docs/FORMATS.md`, "Images").
    pub fn is_inode(&self) -> bool
        ensures { IsTrue result ↔ IsInode self.now }
    {
        self.has_kind()
            && self.mode < MODE_END
            && Reference::has_words(self.first)
            && (self.kind != Attrs::FREE || *self == Attrs::free(self.generation, self.change))
            && (self.kind == Attrs::DIRECTORY || (self.parent == 0 && self.names == 0))
    }

    // Whether the kind is one of the four.
    fn has_kind(&self) -> bool
        ensures { IsTrue result ↔ IsKind self.now.kind }
    {
        self.kind == Attrs::FREE
            || self.kind == Attrs::REGULAR
            || self.kind == Attrs::DIRECTORY
            || self.kind == Attrs::LINK
    }
}
