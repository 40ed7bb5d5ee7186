ghost use Rattle.std.specs.Prelude.{◌≡◌, ◌≤◌, ◌*◌};
ghost use Rattle.fs_rules.specs.Good.{IsGood};
ghost use Rattle.fs_rules.specs.Numbers.{used_in_all, free_blocks};

use fs_rules::PlainTree;

/// How many blocks no file uses.
pub fn free_blocks(tree: &PlainTree) -> u32
    requires { IsGood tree.now }
    ensures { result ≡ free_blocks tree.now }
{
    tree.geometry.memories * tree.geometry.blocks - used_in_all(tree)
}

// How many blocks all files use, which are no more than there are.
fn used_in_all(tree: &PlainTree) -> u32
    requires { IsGood tree.now }
    ensures sum { result ≡ used_in_all tree.now }
    ensures fits { result ≤ tree.now.geometry.memories * tree.now.geometry.blocks }
{
    tree.files.used() as u32
}
