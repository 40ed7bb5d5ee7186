ghost use Rattle.std.specs.Prelude.{◌≡◌, [], ◌∷◌, Some, OnOk, OnErr};
ghost use Rattle.std.specs.FinMap as map;
ghost use Rattle.fs_rules.specs.declared.file.File.{File as AFile};
ghost use Rattle.fs_rules.specs.Making.{with_name, linked};
ghost use Rattle.fs_rules.specs.Edits.{Changed, changed_at, edited};
ghost use Rattle.fs_edits.specs.Giving.{CanGain, CanGive};

use crate::change::{put, take_out};
use crate::make::put_entry;
use fs_rules::{Bytes, Entry, File, NoMemory, PlainTree, Stamp};
use std::alloc::Global;

/// Gives a name in the directory `number` to a file that has one, and a link. On [`NoMemory`] the tree is
/// as before.
#[tactic(auto, unfolding(fs_rules::specs::Edits::edited))]
pub fn give_one(
    alloc: Global,
    tree: &mut PlainTree,
    number: u32,
    name: &[u8],
    file: u32,
    now: Stamp,
) -> Result<(), NoMemory>
    requires { (d : AFile) × (f : AFile) × CanGive tree.old number file name.now d f }
    ensures ok { (d : AFile) → (f : AFile) → CanGive tree.old number file name.now d f
        → OnOk result (tree.new ≡ edited now tree.old (Changed number (with_name now name.now file d) ∷ Changed file (linked f) ∷ [])) }
    ensures err { OnErr result (tree.new ≡ tree.old) }
{
    let Some(dir) = tree.files.get(number) else {
        return Err(NoMemory);
    };
    let links = dir.links;
    let name = Bytes::from_slice(alloc, name)?;
    put_entry(alloc, tree, number, Entry { name, file }, links, now)?;
    add_link(alloc, tree, file, now);
    Ok(())
}

// Adds a link to the file with a number. It takes no memory.
fn add_link(alloc: Global, tree: &mut PlainTree, number: u32, now: Stamp)
    requires { (f : AFile) × (map.get tree.old.files number ≡ Some f) × CanGain f }
    ensures { (f : AFile) → map.get tree.old.files number ≡ Some f → tree.new ≡ record tree.old { files = map.insert tree.old.files number (changed_at now (linked f)) } }
{
    let file = take_out(alloc, tree, number);
    let file = File {
        links: file.links + 1,
        ..file
    };
    put(tree, number, file, now);
}
