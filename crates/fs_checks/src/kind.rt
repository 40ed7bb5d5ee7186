ghost use Rattle.std.specs.Prelude.{◌≡◌};
ghost use Rattle.fs_rules.specs.File.{kind_of};
ghost use Rattle.fs_checks.specs.Facts.{kind_in, kind_by, nothing_of};

use fs_rules::Content;

/// The kind of a file.
#[derive(Clone, Copy, Debug, PartialEq, Eq)]
pub enum Kind {
    Regular,
    Directory,
    Link,
}

impl Kind {
    /// The kind of a content.
    pub fn of(content: &Content) -> Kind
        ensures { result ≡ kind_in content.now }
    {
        match content {
            Content::Regular(_) => Kind::Regular,
            Content::Directory { .. } => Kind::Directory,
            Content::Link(_) => Kind::Link,
        }
    }

    /// The kind with a number (RFC 1094, section 2.3.2); `None` for every other number, as that of a free
    /// inode.
    pub fn numbered(number: u32) -> Option<Kind>
        ensures { result ≡ kind_by number }
    {
        match number {
            1 => Some(Kind::Regular),
            2 => Some(Kind::Directory),
            5 => Some(Kind::Link),
            _ => None,
        }
    }

    /// Its number.
    pub fn number(self) -> u32
        ensures { result ≡ kind_of (nothing_of self) }
    {
        match self {
            Kind::Regular => 1,
            Kind::Directory => 2,
            Kind::Link => 5,
        }
    }
}
