ghost use Rattle.std.specs.Prelude.{◌≡◌, ◌++◌, IfOk, OnOk};
ghost use Rattle.std.specs.FinMap as table;
ghost use Rattle.fs_listing.specs.Listing.{kind_word, file_line, name_line, data_line, name_lines, data_lines, file_lines};

use crate::line::line_of;
use crate::tree_lines::Listing;
use crate::word::Word;
use fs_rules::{Blocks, Content, Entry, File, Slots};
use sfs_base::{Bytes, NoMemory};
use std::alloc::Global;

/// Adds the lines of a file: its own, and those of its names or its stored blocks (`docs/FORMATS.md`, "Listings").
/// [`NoMemory`]: there is no memory for them.
pub fn append_file(
    alloc: Global,
    lines: &mut Listing,
    number: u32,
    file: &File,
) -> Result<(), NoMemory>
    ensures { OnOk result (lines.new ≡ lines.old ++ file_lines number file.now) }
{
    lines.push(file_line(alloc, number, file)?)?;
    match &file.content {
        Content::Regular(blocks) => append_blocks(alloc, lines, number, blocks),
        Content::Directory { slots, .. } => append_names(alloc, lines, number, slots),
        Content::Link(blocks) => append_blocks(alloc, lines, number, blocks),
    }
}

// A line for each slot in use.
fn append_names(
    alloc: Global,
    lines: &mut Listing,
    directory: u32,
    slots: &Slots,
) -> Result<(), NoMemory>
    ensures { OnOk result (lines.new ≡ lines.old ++ name_lines directory 0 slots.now) }
{
    for (slot, entry) in slots.as_slice().iter().enumerate() {
        if let Some(entry) = entry {
            lines.push(name_line(alloc, directory, slot as u64, entry)?)?;
        }
    }
    Ok(())
}

// A line for each stored block.
fn append_blocks(
    alloc: Global,
    lines: &mut Listing,
    number: u32,
    blocks: &Blocks,
) -> Result<(), NoMemory>
    ensures { OnOk result (lines.new ≡ lines.old ++ data_lines number (table.entries blocks.now)) }
{
    for (index, block) in blocks.iter() {
        lines.push(data_line(alloc, number, *index, block.as_slice())?)?;
    }
    Ok(())
}

// The line of a file.
#[tactic(auto, unfolding(crate::specs::Listing::file_line))]
fn file_line(alloc: Global, number: u32, file: &File) -> Result<Bytes, NoMemory>
    ensures { IfOk result (λ line. line ≡ file_line number file.now) }
{
    let kind = kind_word(&file.content);
    line_of(
        alloc,
        b"file",
        &[
            Word::Number(u64::from(number)),
            Word::Number(u64::from(file.generation)),
            Word::Text(&kind),
            Word::Mode(file.mode),
            Word::Number(u64::from(file.links)),
            Word::Number(u64::from(file.uid)),
            Word::Number(u64::from(file.gid)),
            Word::Number(u64::from(file.size)),
            Word::Number(file.change),
            Word::Number(u64::from(file.atime.sec)),
            Word::Number(u64::from(file.atime.usec)),
            Word::Number(u64::from(file.mtime.sec)),
            Word::Number(u64::from(file.mtime.usec)),
            Word::Number(u64::from(file.ctime.sec)),
            Word::Number(u64::from(file.ctime.usec)),
        ],
    )
}

// The line of a slot in use.
#[tactic(auto, unfolding(crate::specs::Listing::name_line))]
fn name_line(alloc: Global, directory: u32, slot: u64, entry: &Entry) -> Result<Bytes, NoMemory>
    ensures { IfOk result (λ line. line ≡ name_line directory slot entry.now) }
{
    line_of(
        alloc,
        b"name",
        &[
            Word::Number(u64::from(directory)),
            Word::Number(slot),
            Word::Hex(entry.name.as_slice()),
            Word::Number(u64::from(entry.file)),
        ],
    )
}

// The line of a stored block.
#[tactic(auto, unfolding(crate::specs::Listing::data_line))]
fn data_line(alloc: Global, number: u32, index: u32, block: &[u8]) -> Result<Bytes, NoMemory>
    ensures { IfOk result (λ line. line ≡ data_line number index block.now) }
{
    line_of(
        alloc,
        b"data",
        &[
            Word::Number(u64::from(number)),
            Word::Number(u64::from(index)),
            Word::Hex(block),
        ],
    )
}

// The kind of a file.
fn kind_word(content: &Content) -> [u8; 3]
    ensures { result ≡ kind_word content.now }
{
    match content {
        Content::Regular(_) => *b"reg",
        Content::Directory { .. } => *b"dir",
        Content::Link(_) => *b"lnk",
    }
}
