ghost use Rattle.std.specs.Prelude.{◌≡◌, ◌*◌, ◌/◌, ◌-◌, ◌^◌, ◌<◌, ◌≤◌, not, ◌∷◌, [], true, false, length, None, Some, IfOk, IfErr, OnOk, OnErr};
ghost use Rattle.std.specs.FinMap as map;
ghost use Rattle.fs_rules.specs.declared.entry.Entry.{Entry};
ghost use Rattle.fs_rules.specs.declared.file.File.{File};
ghost use Rattle.fs_rules.specs.File.{is_directory, slots_of, used};
ghost use Rattle.fs_rules.specs.Slots as slot;
ghost use Rattle.fs_rules.specs.Numbers.{kept_at};
ghost use Rattle.fs_rules.specs.Edits.{Changed, Made, changed_at, edited};
ghost use Rattle.fs_rules.specs.Making.{with_slots};
ghost use Rattle.fs_edits.specs.Giving.{receiving, CanReceive};

use crate::change::{changed, put_back, take_out};
use fs_content::put_name;
use fs_rules::{
    BLOCK_BYTES, Bytes, Content, Entry, File, Kept, NoMemory, PlainTree, SLOTS_PER_BLOCK, Stamp,
};
use std::alloc::Global;

/// Makes a file at a free number, and puts its name into a directory, which then has so many links. On
/// [`NoMemory`] the tree is as before.
pub fn make_file(
    alloc: Global,
    tree: &mut PlainTree,
    parent: u32,
    name: &[u8],
    links: u32,
    number: u32,
    file: File,
    now: Stamp,
) -> Result<(), NoMemory>
    requires room { (d : File) × CanReceive tree.old parent d (record { name = name.now; file = number }) }
    requires free { map.get tree.old.files number ≡ None }
    ensures ok { (d : File) → map.get tree.old.files parent ≡ Some d
        → OnOk result (tree.new ≡ edited now tree.old (Changed parent (receiving now name.now number links d) ∷ Made number file ∷ [])) }
    ensures err { OnErr result (tree.new ≡ tree.old) }
{
    let name = Bytes::from_slice(alloc, name)?;
    tree.files.insert(number, file)?;
    let entry = Entry { name, file: number };
    if put_entry(alloc, tree, parent, entry, links, now).is_err() {
        tree.files.remove(number);
        return Err(NoMemory);
    }
    tree.freed.remove(number);
    Ok(())
}

/// Puts a name into a directory, which then has so many links. On [`NoMemory`] the tree is as before.
pub(crate) fn put_entry(
    alloc: Global,
    tree: &mut PlainTree,
    parent: u32,
    entry: Entry,
    links: u32,
    now: Stamp,
) -> Result<(), NoMemory>
    requires { (d : File) × CanReceive tree.old parent d entry }
    ensures ok { (d : File) → map.get tree.old.files parent ≡ Some d
        → OnOk result (tree.new ≡ record tree.old { files = map.insert tree.old.files parent (changed_at now (receiving now entry.name entry.file links d)) }) }
    ensures err { OnErr result (tree.new ≡ tree.old) }
{
    let dir = take_out(alloc, tree, parent);
    match with_entry(alloc, dir, entry, links, now) {
        Ok(dir) => {
            put_back(tree, parent, dir);
            Ok(())
        }
        Err(dir) => {
            put_back(tree, parent, dir);
            Err(NoMemory)
        }
    }
}

// The directory after a name was put, changed; or, where memory ran out, as it was.
fn with_entry(alloc: Global, dir: File, entry: Entry, links: u32, now: Stamp) -> Result<File, File>
    requires is { is_directory dir.content ≡ true }
    requires change { dir.change < 2 ^ 64 - 1 }
    requires few { length (slot.put_name (slots_of dir.content) entry) ≤ 7650 }
    ensures ok { IfOk result (λ f. f ≡ changed_at now (receiving now entry.name entry.file links dir)) }
    ensures err { IfErr result (λ f. f ≡ dir) }
{
    let (content, is_put) = content_with(alloc, dir.content, entry);
    if !is_put {
        return Err(File { content, ..dir });
    }
    let size = directory_size(&content);
    let dir = File {
        content,
        links,
        size,
        mtime: now,
        ..dir
    };
    Ok(changed(dir, now))
}

/// The content of a directory after a name was put, and whether it was: not where memory ran out, and then
/// it is as it was.
pub(crate) fn content_with(alloc: Global, content: Content, entry: Entry) -> (Content, bool)
    ensures done { result.1 ≡ true → is_directory content ≡ true → result.0 ≡ with_slots (slot.put_name (slots_of content) entry) content }
    ensures kept { result.1 ≡ false → result.0 ≡ content }
{
    match content {
        Content::Directory { mut slots, parent } => {
            let done = put_name(alloc, &mut slots, entry).is_ok();
            (Content::Directory { slots, parent }, done)
        }
        other => (other, false),
    }
}

// The size of a directory; another file has no slots.
fn directory_size(content: &Content) -> u32
    requires { length (slots_of content.now) ≤ 7650 }
    ensures { result ≡ 4096 * (length (slots_of content.now) / 15) }
{
    match content {
        Content::Directory { slots, .. } => BLOCK_BYTES * (slots.len() / SLOTS_PER_BLOCK) as u32,
        _ => 0,
    }
}

/// What a free number keeps of the file that had it last: one that was never used keeps zeros.
pub fn kept_at(tree: &PlainTree, number: u32) -> Kept
    ensures { result ≡ kept_at tree.now number }
{
    match tree.freed.get(number) {
        Some(kept) => *kept,
        None => Kept {
            generation: 0,
            change: 0,
        },
    }
}
