ghost use Rattle.std.specs.Prelude.{◌≡◌, ◌+◌, ◌-◌, ◌*◌, ◌/◌, ◌^◌, ◌<◌, [], ◌∷◌, ◌++◌, false, min, length, IfOk, OnOk};
ghost use Rattle.nfs_proto.specs.declared.dir_entry.DirEntry.{DirEntry};
ghost use Rattle.fs_rules.specs.Reading.{names_answer};
ghost use Rattle.fs_rules.specs.Slots.{entries_behind, entries_from, entries_of, entry_size};
ghost use Rattle.fs_content.specs.Listing.{all_offered, offered};

use fs_rules::{Answer, Bytes, NoMemory, Slots};
use nfs_proto::{DirEntries, DirEntry};
use std::alloc::Global;

/// The most bytes of names that an answer has (`docs/FORMATS.md`).
const MAX_NAMES_BYTES: u32 = 8_192;

/// The bytes of an answer with names that are no entry's.
const ENDING_BYTES: u32 = 8;

/// The cookie of the first slot: 1 and 2 are those of the directory itself and of its parent.
const FIRST_SLOT_COOKIE: u32 = 3;

/// The bytes of an entry beside its name.
const ENTRY_BYTES: usize = 16;

/// The names of a directory behind a cookie (RFC 1094, section 2.2.17): itself, its parent, and its names.
/// As many as fit into so many bytes, at least one where one is left, and whether these are the last.
pub fn list_names(
    alloc: Global,
    number: u32,
    parent: u32,
    slots: &Slots,
    cookie: u32,
    count: u32,
) -> Result<Answer, NoMemory>
    ensures { length slots.now < 2 ^ 31 → IfOk result (λ answer. answer ≡ names_answer count (entries_behind cookie (entries_of number parent slots.now))) }
{
    let mut run = Run::new(alloc, count);
    run.offer_behind(alloc, cookie, number, b".", 1)?;
    run.offer_behind(alloc, cookie, parent, b"..", 2)?;
    run.offer_slots(alloc, cookie, slots)?;
    Ok(Answer::Names {
        entries: run.entries,
        eof: !run.leaves_some,
    })
}

/// The entries of an answer with names, while they are given one after another.
#[derive(Debug, Drop)]
pub struct Run {
    /// Those that are given.
    pub entries: DirEntries,
    /// The bytes that are left for further ones.
    pub room: usize,
    /// Whether one did not fit.
    pub is_full: bool,
    /// Whether one was left out.
    pub leaves_some: bool,
}

impl Run {
    /// No entries, and the room that so many bytes leave for them.
    pub fn new(alloc: Global, count: u32) -> Run
        ensures { result ≡ record { entries = []; room = min count 8192 - 8; is_full = false; leaves_some = false } }
    {
        let room = count.min(MAX_NAMES_BYTES).saturating_sub(ENDING_BYTES);
        Run {
            entries: DirEntries::new(alloc),
            room: room as usize,
            is_full: false,
            leaves_some: false,
        }
    }

    // Gives an entry where it fits, and the first one in any case.
    fn offer(
        &mut self,
        alloc: Global,
        fileid: u32,
        name: &[u8],
        cookie: u32,
    ) -> Result<(), NoMemory>
        ensures { OnOk result (self.new ≡ offered self.old (record { fileid = fileid; name = name.now; cookie = cookie })) }
    {
        if self.is_full {
            self.leaves_some = true;
            return Ok(());
        }
        let size = entry_bytes(name);
        if size <= self.room {
            self.give(alloc, fileid, name, cookie)?;
            self.room -= size;
        } else if self.entries.is_empty() {
            self.give(alloc, fileid, name, cookie)?;
            self.is_full = true;
        } else {
            self.is_full = true;
            self.leaves_some = true;
        }
        Ok(())
    }

    // Adds an entry.
    fn give(&mut self, alloc: Global, fileid: u32, name: &[u8], cookie: u32) -> Result<(), NoMemory>
        ensures { OnOk result (self.new ≡ record self.old { entries = self.old.entries ++ record { fileid = fileid; name = name.now; cookie = cookie } ∷ [] }) }
    {
        let name = Bytes::from_slice(alloc, name)?;
        self.entries.push(DirEntry {
            fileid,
            name,
            cookie,
        })
    }

    /// Offers an entry, where it stands behind a cookie: it is given where it fits, and the first one in any case.
    /// On [`NoMemory`] the run is of no use.
    pub fn offer_behind(
        &mut self,
        alloc: Global,
        behind: u32,
        fileid: u32,
        name: &[u8],
        cookie: u32,
    ) -> Result<(), NoMemory>
        ensures { OnOk result (self.new ≡ all_offered self.old (entries_behind behind (record { fileid = fileid; name = name.now; cookie = cookie } ∷ []))) }
    {
        if cookie > behind {
            self.offer(alloc, fileid, name, cookie)?;
        }
        Ok(())
    }

    // Offers the names in slots, where they stand behind a cookie.
    fn offer_slots(&mut self, alloc: Global, behind: u32, slots: &Slots) -> Result<(), NoMemory>
        ensures { OnOk result (length slots.now < 2 ^ 31 → self.new ≡ all_offered self.old (entries_behind behind (entries_from 0 slots.now))) }
    {
        let mut cookie = FIRST_SLOT_COOKIE;
        for slot in slots.as_slice() {
            if let Some(entry) = slot {
                self.offer_behind(alloc, behind, entry.file, entry.name.as_slice(), cookie)?;
            }
            cookie = cookie.saturating_add(1);
        }
        Ok(())
    }
}

// What an entry takes of the room of an answer: its four words, and its name, filled up.
fn entry_bytes(name: &[u8]) -> usize
    ensures { result ≡ 16 + (length name.now + 3) / 4 * 4 }
{
    ENTRY_BYTES + (name.len() + 3) / 4 * 4
}
