ghost use Rattle.std.specs.Prelude.{◌≡◌, [], ◌∷◌, ◌+◌, ◌-◌, ◌*◌, ◌/◌, ◌^◌, ◌<◌, ◌≤◌, nat_lt, length, OnOk, OnErr};
ghost use Rattle.std.specs.FinMap as map;
ghost use Rattle.fs_rules.specs.declared.file.File.{File as AFile};
ghost use Rattle.fs_rules.specs.File.{is_directory, slots_of};
ghost use Rattle.fs_rules.specs.Slots.{take_name};
ghost use Rattle.fs_rules.specs.Making.{with_slots};
ghost use Rattle.fs_rules.specs.Names.{without_name, unlinked, one_where};
ghost use Rattle.fs_rules.specs.Edits.{Changed, Freed, changed_at, edited};
ghost use Rattle.fs_edits.specs.Taking.{HasRoom, CanLose, CanTake, taken_edits};

use crate::change::{put, take_out};
use fs_content::take_name;
use fs_rules::{
    BLOCK_BYTES, Content, File, Kept, NoMemory, PlainTree, SLOTS_PER_BLOCK, Slots, Stamp,
};
use std::alloc::Global;

/// Takes a name of a file from a directory, and a link from the file: where that was its last, and of a
/// directory, the file is freed. A directory takes the link to its parent along. On [`NoMemory`] the tree is
/// as before.
pub fn take_entry(
    alloc: Global,
    tree: &mut PlainTree,
    number: u32,
    name: &[u8],
    file: u32,
    now: Stamp,
) -> Result<(), NoMemory>
    requires { (d : AFile) × (f : AFile) × CanTake tree.old number file (one_where (is_directory f.content)) d f }
    ensures ok { (d : AFile) → (f : AFile) → CanTake tree.old number file (one_where (is_directory f.content)) d f
        → OnOk result (tree.new ≡ edited now tree.old (taken_edits now number name.now d file f)) }
    ensures err { OnErr result (tree.new ≡ tree.old) }
{
    let Some(taken) = tree.files.get(file) else {
        return Err(NoMemory);
    };
    if is_directory(&taken.content) {
        return take_last(alloc, tree, number, name, 1, file, now);
    }
    if has_other_names(taken) {
        take_one(alloc, tree, number, name, file, now);
        return Ok(());
    }
    take_last(alloc, tree, number, name, 0, file, now)
}

/// Whether a file is a directory.
pub fn is_directory(content: &Content) -> bool
    ensures { result ≡ is_directory content.now }
{
    matches!(content, Content::Directory { .. })
}

/// Whether a file, which is no directory, has more than one name.
pub fn has_other_names(file: &File) -> bool
    ensures { result ≡ nat_lt 1 file.now.links }
{
    file.links > 1
}

/// Takes one of several names of a file from a directory, and a link from the file. It takes no memory.
#[tactic(auto, unfolding(fs_rules::specs::Edits::edited))]
pub(crate) fn take_one(
    alloc: Global,
    tree: &mut PlainTree,
    number: u32,
    name: &[u8],
    file: u32,
    now: Stamp,
)
    requires { (d : AFile) × (f : AFile) × CanTake tree.old number file 0 d f }
    ensures { (d : AFile) → (f : AFile) → CanTake tree.old number file 0 d f
        → tree.new ≡ edited now tree.old (Changed number (without_name now name.now d) ∷ Changed file (unlinked 1 f) ∷ []) }
{
    take_from(alloc, tree, number, name, 0, now);
    take_link(alloc, tree, file, now);
}

/// Takes the last name of a file, and so many links, from a directory, and frees the file. On [`NoMemory`]
/// the tree is as before.
#[tactic(auto, unfolding(fs_rules::specs::Edits::edited))]
pub fn take_last(
    alloc: Global,
    tree: &mut PlainTree,
    number: u32,
    name: &[u8],
    links: u32,
    file: u32,
    now: Stamp,
) -> Result<(), NoMemory>
    requires { (d : AFile) × (f : AFile) × CanTake tree.old number file links d f }
    ensures ok { (d : AFile) → (f : AFile) → CanTake tree.old number file links d f
        → OnOk result (tree.new ≡ edited now tree.old (Changed number (unlinked links (without_name now name.now d)) ∷ Freed file f ∷ [])) }
    ensures err { OnErr result (tree.new ≡ tree.old) }
{
    keep(tree, file)?;
    take_from(alloc, tree, number, name, links, now);
    tree.files.remove(file);
    Ok(())
}

/// Takes a name, and so many links, from the directory with a number. It takes no memory.
pub(crate) fn take_from(
    alloc: Global,
    tree: &mut PlainTree,
    number: u32,
    name: &[u8],
    links: u32,
    now: Stamp,
)
    requires { (d : AFile) × (map.get tree.old.files number ≡ Some d) × HasRoom d × CanLose links d }
    ensures { (d : AFile) → map.get tree.old.files number ≡ Some d → tree.new ≡ record tree.old { files = map.insert tree.old.files number (changed_at now (unlinked links (without_name now name.now d))) } }
{
    let dir = take_out(alloc, tree, number);
    let dir = without_name(dir, name, links, now);
    put(tree, number, dir, now);
}

/// Takes a link from the file with a number. It takes no memory.
pub(crate) fn take_link(alloc: Global, tree: &mut PlainTree, number: u32, now: Stamp)
    requires { (f : AFile) × (map.get tree.old.files number ≡ Some f) × CanLose 1 f }
    ensures { (f : AFile) → map.get tree.old.files number ≡ Some f → tree.new ≡ record tree.old { files = map.insert tree.old.files number (changed_at now (unlinked 1 f)) } }
{
    let file = take_out(alloc, tree, number);
    let file = File {
        links: file.links - 1,
        ..file
    };
    put(tree, number, file, now);
}

/// Keeps the generation and the raised change number of the file with a number, which is to be freed. On
/// [`NoMemory`] the tree is as before.
pub(crate) fn keep(tree: &mut PlainTree, number: u32) -> Result<(), NoMemory>
    requires { (f : AFile) × (map.get tree.old.files number ≡ Some f) × (f.change < 2 ^ 64 - 1) }
    ensures ok { (f : AFile) → map.get tree.old.files number ≡ Some f
        → OnOk result (tree.new ≡ record tree.old { freed = map.insert tree.old.freed number (record { generation = f.generation; change = f.change + 1 }) }) }
    ensures err { OnErr result (tree.new ≡ tree.old) }
{
    let Some(file) = tree.files.get(number) else {
        return Err(NoMemory);
    };
    let kept = Kept {
        generation: file.generation,
        change: file.change + 1,
    };
    tree.freed.insert(number, kept)?;
    Ok(())
}

// A directory without a name and so many links.
fn without_name(dir: File, name: &[u8], links: u32, now: Stamp) -> File
    requires room { HasRoom dir }
    requires links { CanLose links dir }
    ensures { result ≡ unlinked links (without_name now name.now dir) }
{
    let (content, size) = emptied(dir.content, name);
    File {
        content,
        links: dir.links - links,
        size,
        mtime: now,
        ..dir
    }
}

/// The content of a directory without a name, and its size; another file has no names, and no size of them.
#[tactic(auto, unfolding(fs_rules::specs::Slots::take_name))]
pub(crate) fn emptied(content: Content, name: &[u8]) -> (Content, u32)
    requires { length (slots_of content) ≤ 7650 }
    ensures content { result.0 ≡ with_slots (take_name (slots_of content) name.now) content }
    ensures size { result.1 ≡ 4096 * (length (take_name (slots_of content) name.now) / 15) }
{
    match content {
        Content::Directory { mut slots, parent } => {
            take_name(&mut slots, name);
            let size = slots.len() / SLOTS_PER_BLOCK * BLOCK_BYTES as usize;
            (Content::Directory { slots, parent }, size as u32)
        }
        other => (other, 0),
    }
}
