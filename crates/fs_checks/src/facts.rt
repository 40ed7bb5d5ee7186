ghost use Rattle.std.specs.Prelude.{◌≡◌, ◌^◌, ◌-◌, ◌<◌, if◌then◌else◌};
ghost use Rattle.fs_rules.specs.declared.content.Content.{Content as AContent};
ghost use Rattle.fs_rules.specs.declared.file.File.{File as AFile};
ghost use Rattle.fs_rules.specs.Access.{may};
ghost use Rattle.fs_rules.specs.Attributes.{is_set, chosen, mode_bits, resized_content, with_attributes, mtime_after, atime_after};
ghost use Rattle.fs_rules.specs.Making.{new_file, new_uid, new_gid};
ghost use Rattle.fs_rules.specs.File.{is_directory};
ghost use Rattle.fs_checks.specs.Facts.{facts_of, facts_by, file_with, bare, nothing_of};

use crate::kind::Kind;
use crate::set::{MODE_VALUES, chosen, chosen_moment, is_moment_set, is_server_time, is_set};
use fs_rules::{
    Attrs, Content, Cred, File, Kept, SUPERUSER, Sattr, Stamp, is_allowed, is_of_group,
};

/// What is kept of a file but for its bytes and names.
#[derive(Clone, Copy, Debug, PartialEq, Eq)]
pub struct Facts {
    pub kind: Kind,
    /// The 12 bits of its mode that are no type.
    pub mode: u32,
    pub links: u32,
    pub uid: u32,
    pub gid: u32,
    pub size: u32,
    /// How often its number was used for a file.
    pub generation: u32,
    /// How often its number's file was changed.
    pub change: u64,
    pub atime: Stamp,
    pub mtime: Stamp,
    pub ctime: Stamp,
}

impl Facts {
    /// Those of a file of the plain tree.
    pub fn of_file(file: &File) -> Facts
        ensures { result ≡ facts_of file.now }
    {
        Facts {
            kind: Kind::of(&file.content),
            mode: file.mode,
            links: file.links,
            uid: file.uid,
            gid: file.gid,
            size: file.size,
            generation: file.generation,
            change: file.change,
            atime: file.atime,
            mtime: file.mtime,
            ctime: file.ctime,
        }
    }

    /// Those of an inode record; `None` for one that is free.
    pub fn of_record(attrs: &Attrs) -> Option<Facts>
        ensures { result ≡ facts_by attrs.now }
    {
        let kind = Kind::numbered(attrs.kind)?;
        Some(Facts {
            kind,
            mode: attrs.mode,
            links: attrs.links,
            uid: attrs.uid,
            gid: attrs.gid,
            size: attrs.size,
            generation: attrs.generation,
            change: attrs.change,
            atime: Stamp {
                sec: attrs.atime_sec,
                usec: attrs.atime_usec,
            },
            mtime: Stamp {
                sec: attrs.mtime_sec,
                usec: attrs.mtime_usec,
            },
            ctime: Stamp {
                sec: attrs.ctime_sec,
                usec: attrs.ctime_usec,
            },
        })
    }

    /// The file that has them, with this content.
    pub fn file(self, content: Content) -> File
        ensures { result ≡ file_with content self }
    {
        File {
            content,
            mode: self.mode,
            links: self.links,
            uid: self.uid,
            gid: self.gid,
            size: self.size,
            generation: self.generation,
            change: self.change,
            atime: self.atime,
            mtime: self.mtime,
            ctime: self.ctime,
        }
    }

    /// Those of a file that is made with a number that keeps `kept`: its generation and its change number
    /// are the kept ones plus one; its owner is the caller, or what user 0 sets, and its group the caller's,
    /// or what user 0 or one who is of it sets.
    #[tactic(auto, unfolding(fs_rules::specs::Making::new_file))]
    pub fn new_file(
        kind: Kind,
        kept: Kept,
        now: Stamp,
        set: &Sattr,
        cred: &Cred,
        mode: u32,
        links: u32,
        size: u32,
    ) -> Facts
        requires generation { kept.generation < 2 ^ 32 - 1 }
        requires change { kept.change < 2 ^ 64 - 1 }
        ensures kind { result.kind ≡ kind }
        ensures file { (content : AContent) → file_with content result ≡ new_file kept now set.now cred.now mode links size content }
    {
        Facts {
            kind,
            mode: mode % MODE_VALUES,
            links,
            uid: new_uid(set, cred),
            gid: new_gid(set, cred),
            size,
            generation: kept.generation + 1,
            change: kept.change + 1,
            atime: chosen_moment(set.atime, now),
            mtime: chosen_moment(set.mtime, now),
            ctime: now,
        }
    }

    /// The facts after what was set (RFC 1094, section 2.2.3): the content of a regular file whose size is
    /// set is then another, and it is not counted as changed yet.
    #[tactic(auto, unfolding(fs_rules::specs::Attributes::with_attributes))]
    pub fn with_attributes(&self, set: &Sattr, now: Stamp) -> Facts
        ensures size { result.size ≡ chosen set.now.size self.now.size }
        ensures file { (content : AContent) → file_with (resized_content self.now.size (chosen set.now.size self.now.size) content) result ≡ with_attributes now set.now (file_with content self.now) }
    {
        Facts {
            mode: self.mode_after(set),
            uid: chosen(set.uid, self.uid),
            gid: chosen(set.gid, self.gid),
            size: chosen(set.size, self.size),
            atime: self.atime_after(set, now),
            mtime: self.mtime_after(set, now),
            ..*self
        }
    }

    // The mode, after that.
    fn mode_after(&self, set: &Sattr) -> u32
        ensures { result ≡ if is_set set.now.mode then mode_bits set.now.mode else self.now.mode }
    {
        if is_set(set.mode) {
            set.mode % MODE_VALUES
        } else {
            self.mode
        }
    }

    // When the file was read last, after that.
    fn atime_after(&self, set: &Sattr, now: Stamp) -> Stamp
        ensures { result ≡ atime_after now set.now (bare self.now) }
    {
        if is_server_time(set.mtime) || is_server_time(set.atime) {
            now
        } else {
            chosen_moment(set.atime, self.atime)
        }
    }

    // When the file was written last, after that: a set size counts as a write.
    fn mtime_after(&self, set: &Sattr, now: Stamp) -> Stamp
        ensures { result ≡ mtime_after now set.now (bare self.now) }
    {
        if is_server_time(set.mtime) {
            now
        } else if is_moment_set(set.mtime) {
            set.mtime
        } else if is_set(set.size) {
            now
        } else {
            self.mtime
        }
    }

    /// Whether the file is a directory.
    pub fn is_directory(&self) -> bool
        ensures { result ≡ is_directory (bare self.now).content }
    {
        matches!(self.kind, Kind::Directory)
    }

    /// Whether the caller may do all that `bits` say with the file (`docs/FORMATS.md`, "The rules of the
    /// file system").
    pub fn may(&self, cred: &Cred, bits: u32) -> bool
        ensures { result ≡ may (bare self.now) cred.now bits }
    {
        is_allowed(
            self.kind.number(),
            self.mode,
            self.uid,
            self.gid,
            cred,
            bits,
        )
    }
}

// The owner of a new file.
fn new_uid(set: &Sattr, cred: &Cred) -> u32
    ensures { result ≡ new_uid set.now cred.now }
{
    if is_set(set.uid) && cred.uid == SUPERUSER {
        set.uid
    } else {
        cred.uid
    }
}

// The group of a new file.
fn new_gid(set: &Sattr, cred: &Cred) -> u32
    ensures { result ≡ new_gid set.now cred.now }
{
    if is_set(set.gid) && (cred.uid == SUPERUSER || is_of_group(cred, set.gid)) {
        set.gid
    } else {
        cred.gid
    }
}
