ghost use Rattle.std.specs.Prelude.{◌≡◌, ◌<◌, IfSome, IfNone};

use crate::layout::MAX_INODES;

/// Where a file's inode record lies: the memory node, and the record's index there.
#[derive(Clone, Copy, Debug, PartialEq, Eq)]
pub struct InodePlace {
    pub memory: u32,
    pub inode: u32,
}

impl InodePlace {
    ghost use Rattle.fs_layout.specs.Places.{file_number};

    /// The number of the file whose record lies there: the numbers of memory node 0 come first, from 1 on.
    pub fn number(&self) -> u32
        requires memory { self.now.memory < 8 }
        requires index { self.now.inode < 16384 }
        ensures { result ≡ file_number self.now }
    {
        MAX_INODES * self.memory + self.inode + 1
    }

    /// Where the record of the file with this number lies. None exactly for the number 0, which no file has.
    pub fn of(number: u32) -> Option<InodePlace>
        ensures found { IfSome result (λ p. (p.inode < 16384) × (file_number p ≡ number)) }
        ensures none { IfNone result (number ≡ 0) }
    {
        let before = number.checked_sub(1)?;
        Some(InodePlace {
            memory: before / MAX_INODES,
            inode: before % MAX_INODES,
        })
    }
}
