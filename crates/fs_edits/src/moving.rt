ghost use Rattle.std.specs.Prelude.{◌≡◌, ◌++◌, ◌/◌, ◌-◌, ◌^◌, ◌<◌, ◌≤◌, length, true, Some, IfOk, IfErr, OnOk, OnErr};
ghost use Rattle.std.specs.FinMap as map;
ghost use Rattle.fs_rules.specs.declared.file.File.{File as AFile};
ghost use Rattle.fs_rules.specs.Good.{IsGood};
ghost use Rattle.fs_rules.specs.File.{slots_of, is_directory};
ghost use Rattle.fs_rules.specs.Slots as slot;
ghost use Rattle.fs_rules.specs.Edits.{changed_at, edited};
ghost use Rattle.fs_rules.specs.Names.{Move, directory_edits, replaced_edits, with_parent};
ghost use Rattle.fs_edits.specs.Giving.{CanReceive};
ghost use Rattle.fs_edits.specs.declared.replaced.Replaced.TheVariants.{IsFreed};
ghost use Rattle.fs_edits.specs.Moving.{moved_edits, exchanged, CanMove, CanReplace};

use crate::change::{put, put_back, take_out};
use crate::make::{content_with, put_entry};
use crate::plan::Plan;
use crate::replaced::Replaced;
use crate::take::{emptied, keep, take_from, take_link};
use fs_rules::{Bytes, Content, Entry, File, NoMemory, PlainTree, Stamp};
use std::alloc::Global;

/// Carries out what was planned. On [`NoMemory`] the tree is as before.
pub fn carry_over(
    alloc: Global,
    tree: &mut PlainTree,
    plan: Plan,
    from_name: &[u8],
    to_name: &[u8],
    now: Stamp,
) -> Result<(), NoMemory>
    requires good { IsGood tree.old }
    requires moves { (m : Move) × CanMove tree.old.files plan m from_name.now to_name.now × CanReplace tree.old.files m plan.replaced }
    ensures ok { (m : Move) → CanMove tree.old.files plan m from_name.now to_name.now → CanReplace tree.old.files m plan.replaced
        → OnOk result (tree.new ≡ edited now tree.old (moved_edits now m ++ replaced_edits m)) }
    ensures err { OnErr result (tree.new ≡ tree.old) }
{
    match plan.replaced {
        Replaced::Nothing => move_name(alloc, tree, plan, from_name, to_name, now),
        Replaced::LosesLink(number) => {
            move_name(alloc, tree, plan, from_name, to_name, now)?;
            take_link(alloc, tree, number, now);
            Ok(())
        }
        Replaced::IsFreed(number) => {
            move_over(alloc, tree, plan, number, from_name, to_name, now)
        }
    }
}

// Moves the name, and frees the file that is replaced.
fn move_over(
    alloc: Global,
    tree: &mut PlainTree,
    plan: Plan,
    replaced: u32,
    from_name: &[u8],
    to_name: &[u8],
    now: Stamp,
) -> Result<(), NoMemory>
    requires good { IsGood tree.old }
    requires moves { (m : Move) × CanMove tree.old.files plan m from_name.now to_name.now × CanReplace tree.old.files m (IsFreed replaced) }
    ensures ok { (m : Move) → CanMove tree.old.files plan m from_name.now to_name.now → CanReplace tree.old.files m (IsFreed replaced)
        → OnOk result (tree.new ≡ edited now tree.old (moved_edits now m ++ replaced_edits m)) }
    ensures err { OnErr result (tree.new ≡ tree.old) }
{
    keep(tree, replaced)?;
    if move_name(alloc, tree, plan, from_name, to_name, now).is_err() {
        tree.freed.remove(replaced);
        return Err(NoMemory);
    }
    tree.files.remove(replaced);
    Ok(())
}

// Moves the name, and tells a directory that is moved its parent.
fn move_name(
    alloc: Global,
    tree: &mut PlainTree,
    plan: Plan,
    from_name: &[u8],
    to_name: &[u8],
    now: Stamp,
) -> Result<(), NoMemory>
    requires { (m : Move) × CanMove tree.old.files plan m from_name.now to_name.now }
    ensures ok { (m : Move) → CanMove tree.old.files plan m from_name.now to_name.now → OnOk result (tree.new ≡ edited now tree.old (moved_edits now m)) }
    ensures err { OnErr result (tree.new ≡ tree.old) }
{
    let name = Bytes::from_slice(alloc, to_name)?;
    let entry = Entry {
        name,
        file: plan.source,
    };
    change_directories(alloc, tree, plan, from_name, entry, now)?;
    set_parent(alloc, tree, plan.source, plan.to, now);
    Ok(())
}

// Puts the name into the one directory, and takes it from the other.
fn change_directories(
    alloc: Global,
    tree: &mut PlainTree,
    plan: Plan,
    from_name: &[u8],
    entry: Entry,
    now: Stamp,
) -> Result<(), NoMemory>
    requires source { entry.file ≡ plan.source }
    requires moves { (m : Move) × CanMove tree.old.files plan m from_name.now entry.name }
    ensures ok { (m : Move) → CanMove tree.old.files plan m from_name.now entry.name → OnOk result (tree.new ≡ edited now tree.old (directory_edits now m)) }
    ensures err { OnErr result (tree.new ≡ tree.old) }
{
    if plan.from == plan.to {
        return exchange(alloc, tree, plan.to, entry, from_name, plan.links, now);
    }
    put_entry(alloc, tree, plan.to, entry, plan.links, now)?;
    take_from(alloc, tree, plan.from, from_name, plan.along, now);
    Ok(())
}

// Puts a name into a directory, which then has so many links, and takes another one from it.
fn exchange(
    alloc: Global,
    tree: &mut PlainTree,
    number: u32,
    entry: Entry,
    old_name: &[u8],
    links: u32,
    now: Stamp,
) -> Result<(), NoMemory>
    requires { (d : AFile) × CanReceive tree.old number d entry }
    ensures ok { (d : AFile) → map.get tree.old.files number ≡ Some d
        → OnOk result (tree.new ≡ record tree.old { files = map.insert tree.old.files number (changed_at now (exchanged now entry old_name.now links d)) }) }
    ensures err { OnErr result (tree.new ≡ tree.old) }
{
    let dir = take_out(alloc, tree, number);
    match with_exchange(alloc, dir, entry, old_name, links, now) {
        Ok(dir) => {
            put(tree, number, dir, now);
            Ok(())
        }
        Err(dir) => {
            put_back(tree, number, dir);
            Err(NoMemory)
        }
    }
}

// The directory with the one name and without the other; or, where memory ran out, as it was.
fn with_exchange(
    alloc: Global,
    dir: File,
    entry: Entry,
    old_name: &[u8],
    links: u32,
    now: Stamp,
) -> Result<File, File>
    requires is { is_directory dir.content ≡ true }
    requires few { length (slot.put_name (slots_of dir.content) entry) ≤ 7650 }
    ensures ok { IfOk result (λ f. f ≡ exchanged now entry old_name.now links dir) }
    ensures err { IfErr result (λ f. f ≡ dir) }
{
    let (content, is_put) = content_with(alloc, dir.content, entry);
    if !is_put {
        return Err(File { content, ..dir });
    }
    let (content, size) = emptied(content, old_name);
    Ok(File {
        content,
        links,
        size,
        mtime: now,
        ..dir
    })
}

// Tells a directory that was moved its parent; another file is changed as well. It takes no memory.
fn set_parent(alloc: Global, tree: &mut PlainTree, number: u32, parent: u32, now: Stamp)
    requires { (f : AFile) × (map.get tree.old.files number ≡ Some f) × (f.change < 2 ^ 64 - 1) }
    ensures { (f : AFile) → map.get tree.old.files number ≡ Some f
        → tree.new ≡ record tree.old { files = map.insert tree.old.files number (changed_at now (record f { content = with_parent parent f.content })) } }
{
    let file = take_out(alloc, tree, number);
    let content = with_parent(file.content, parent);
    put(tree, number, File { content, ..file }, now);
}

// A content with another parent, where it is that of a directory.
fn with_parent(content: Content, parent: u32) -> Content
    ensures { result ≡ with_parent parent content }
{
    match content {
        Content::Directory { slots, .. } => Content::Directory { slots, parent },
        other => other,
    }
}
