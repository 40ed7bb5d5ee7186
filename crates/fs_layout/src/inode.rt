ghost use Rattle.std.specs.Prelude.{◌≡◌, ◌+◌, ◌*◌, ◌^◌, IfSome};
ghost use Rattle.fs_layout.specs.declared.attrs.Attrs.{Attrs};
ghost use Rattle.fs_layout.specs.Inodes.{IsInode, SpellsInode, inode_words};

use crate::attrs::Attrs;
use crate::reference::Reference;
use crate::words::{WORD_BYTES, read_words, write_words};

/// The words of an inode record.
const INODE_WORDS: usize = 32;

/// The bytes of an inode record.
pub const INODE_BYTES: usize = WORD_BYTES * INODE_WORDS;

/// What stands above the low word of a change number.
const HIGH_WORD: u64 = 1 << 32;

/// The fields of the inode record that bytes spell (`docs/FORMATS.md`, "Images"). None exactly where they
/// are no such record.
pub fn read_inode(bytes: &[u8]) -> Option<Attrs>
    ensures found { IfSome result (λ a. SpellsInode a bytes.now) }
    ensures only { (a : Attrs) → SpellsInode a bytes.now → result ≡ Some a }
{
    attrs_of(read_words(bytes)?)
}

/// The inode record with these fields, which are such that a record may have them
/// ([`Attrs::is_inode`]).
pub fn write_inode(a: &Attrs) -> [u8; INODE_BYTES]
    requires { IsInode a.now }
    ensures { SpellsInode a.now result }
{
    let mut record = [0; INODE_BYTES];
    write_words(&words_of(*a), &mut record);
    record
}

// The fields with these words.
#[tactic(auto, unfolding(crate::specs::Inodes::inode_words))]
fn attrs_of(words: [u32; INODE_WORDS]) -> Option<Attrs>
    ensures found { IfSome result (λ a. IsInode a × (words ≡ inode_words a)) }
    ensures only { (a : Attrs) → IsInode a → words ≡ inode_words a → result ≡ Some a }
{
    let [
        kind,
        mode,
        links,
        uid,
        gid,
        size,
        generation,
        used,
        change_high,
        change_low,
        atime_sec,
        atime_usec,
        mtime_sec,
        mtime_usec,
        ctime_sec,
        ctime_usec,
        first_memory,
        first_place,
        chains,
        parent,
        names,
        ..
    ] = words;
    let attrs = Attrs {
        kind,
        mode,
        links,
        uid,
        gid,
        size,
        generation,
        used,
        change: joined(change_high, change_low),
        atime_sec,
        atime_usec,
        mtime_sec,
        mtime_usec,
        ctime_sec,
        ctime_usec,
        first: Reference::from_words(first_memory, first_place).ok()?,
        chains,
        parent,
        names,
    };
    if attrs.is_inode() && words == words_of(attrs) {
        Some(attrs)
    } else {
        None
    }
}

// The number with these words.
fn joined(high: u32, low: u32) -> u64
    ensures { result ≡ 2 ^ 32 * high + low }
{
    HIGH_WORD * u64::from(high) + u64::from(low)
}

// The words of the record with these fields.
#[tactic(auto, unfolding(crate::specs::Inodes::inode_words))]
fn words_of(a: Attrs) -> [u32; INODE_WORDS]
    requires { IsInode a }
    ensures { result ≡ inode_words a }
{
    let [first_memory, first_place] = Reference::to_words(a.first);
    let change_high = (a.change / HIGH_WORD) as u32;
    let change_low = (a.change % HIGH_WORD) as u32;
    [
        a.kind,
        a.mode,
        a.links,
        a.uid,
        a.gid,
        a.size,
        a.generation,
        a.used,
        change_high,
        change_low,
        a.atime_sec,
        a.atime_usec,
        a.mtime_sec,
        a.mtime_usec,
        a.ctime_sec,
        a.ctime_usec,
        first_memory,
        first_place,
        a.chains,
        a.parent,
        a.names,
        0,
        0,
        0,
        0,
        0,
        0,
        0,
        0,
        0,
        0,
        0,
    ]
}
