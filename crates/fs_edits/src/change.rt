ghost use Rattle.std.specs.Prelude.{◌≡◌, ◌+◌, ◌-◌, ◌^◌, ◌<◌, Some, IsSome};
ghost use Rattle.std.specs.FinMap as map;
ghost use Rattle.fs_rules.specs.Edits.{changed_at};
ghost use Rattle.fs_edits.specs.Blank.{blank};

use fs_rules::{Blocks, Content, File, PlainTree, Stamp};
use std::alloc::Global;

/// Takes the file with a number out of a tree for a while, and leaves another in its place. It takes no
/// memory.
pub fn take_out(alloc: Global, tree: &mut PlainTree, number: u32) -> File
    requires { IsSome (map.get tree.old.files number) }
    ensures file { map.get tree.old.files number ≡ Some result }
    ensures tree { tree.new ≡ record tree.old { files = map.insert tree.old.files number blank } }
{
    tree.files.replace(number, blank(alloc)).unwrap()
}

// The file that stands in a tree for one that is taken out for a while.
fn blank(alloc: Global) -> File
    ensures { result ≡ blank }
{
    File {
        content: Content::Regular(Blocks::new(alloc)),
        mode: 0,
        links: 0,
        uid: 0,
        gid: 0,
        size: 0,
        generation: 0,
        change: 0,
        atime: Stamp::ZERO,
        mtime: Stamp::ZERO,
        ctime: Stamp::ZERO,
    }
}

/// Puts a file in the place of what stands at its number. It takes no memory.
pub fn put_back(tree: &mut PlainTree, number: u32, file: File)
    requires { IsSome (map.get tree.old.files number) }
    ensures { tree.new ≡ record tree.old { files = map.insert tree.old.files number file } }
{
    tree.files.replace(number, file);
}

/// Puts a changed file in the place of what stands at its number. It takes no memory.
pub(crate) fn put(tree: &mut PlainTree, number: u32, file: File, now: Stamp)
    requires change { file.change < 2 ^ 64 - 1 }
    requires there { IsSome (map.get tree.old.files number) }
    ensures { tree.new ≡ record tree.old { files = map.insert tree.old.files number (changed_at now file) } }
{
    put_back(tree, number, changed(file, now));
}

/// A file that was changed: its change number rises by one, and `now` is the moment of its change.
pub fn changed(file: File, now: Stamp) -> File
    requires { file.change < 2 ^ 64 - 1 }
    ensures { result ≡ changed_at now file }
{
    File {
        change: file.change + 1,
        ctime: now,
        ..file
    }
}
