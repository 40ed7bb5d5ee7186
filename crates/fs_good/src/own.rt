ghost use Rattle.std.specs.Prelude.{◌≡◌, ◌*◌, ◌/◌, ◌≤◌, ◌↔◌, length, IsTrue};
ghost use Rattle.fs_rules.specs.Good.{IsStored};
ghost use Rattle.fs_laws.proofs.WholeLemmas.{IsOwn, IsOwnContent, IsSlotList};

use crate::slots::is_slot_list;
use crate::stored::is_stored;
use fs_rules::{BLOCK_BYTES, Blocks, Content, Entry, File, SLOTS_PER_BLOCK};
use std::alloc::Global;

/// The bits of a mode.
const MAX_MODE: u32 = 0o7777;

/// The most links of a file.
const MAX_LINKS: u32 = 32_000;

/// The most bytes of a regular file: those of 4,080 blocks.
const MAX_FILE_BYTES: u32 = 16_711_680;

/// The most bytes of a symbolic link.
const MAX_LINK_BYTES: u32 = 1_024;

// Whether a file is in order, as far as it itself tells.
pub(crate) fn is_own(alloc: Global, file: &File) -> bool
    ensures { IsTrue result ↔ IsOwn file.now }
{
    file.mode <= MAX_MODE && file.links <= MAX_LINKS && has_content(alloc, file)
}

// Whether what it contains fits its size and links.
fn has_content(alloc: Global, file: &File) -> bool
    ensures { IsTrue result ↔ IsOwnContent file.now file.now.content }
{
    match &file.content {
        Content::Regular(blocks) => has_blocks(file.size, MAX_FILE_BYTES, file.links, blocks),
        Content::Link(blocks) => has_blocks(file.size, MAX_LINK_BYTES, file.links, blocks),
        Content::Directory { slots, .. } => has_slots(alloc, file.size, slots.as_slice()),
    }
}

// Whether a file of this size, which is at most so much, with these links may have these blocks.
fn has_blocks(size: u32, most: u32, links: u32, blocks: &Blocks) -> bool
    ensures { IsTrue result ↔ ((size ≤ most) × IsStored size blocks.now × (1 ≤ links)) }
{
    size <= most && links >= 1 && is_stored(size, blocks)
}

// Whether a directory of this size may have these slots.
fn has_slots(alloc: Global, size: u32, slots: &[Option<Entry>]) -> bool
    ensures { IsTrue result ↔ ((size ≡ 4096 * (length slots.now / 15)) × IsSlotList slots.now) }
{
    is_slot_list(alloc, slots)
        && size as usize == BLOCK_BYTES as usize * (slots.len() / SLOTS_PER_BLOCK)
}
