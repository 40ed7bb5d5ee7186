ghost use Rattle.std.specs.Prelude.{◌≡◌, ◌+◌, ◌*◌, ◌≤◌, ◌↔◌, ℕ, Some, IsTrue};
ghost use Rattle.std.specs.FinMap as table;
ghost use Rattle.fs_rules.specs.declared.kept.Kept.{Kept};
ghost use Rattle.fs_rules.specs.Geometry.{IsWithinLimits};
ghost use Rattle.fs_rules.specs.Good.{IsGoodKept, parent_at};
ghost use Rattle.fs_rules.specs.Numbers.{used_in_all};
ghost use Rattle.fs_good.specs.Counts.{IsCapped};
ghost use Rattle.fs_good.specs.Places.{IsShaped};

use crate::place::is_number;
use fs_rules::{Content, Kept, PlainTree, ROOT};

// Whether the root is there, what free numbers keep is in order, and the files fit into the blocks.
pub(crate) fn is_shaped(tree: &PlainTree) -> bool
    requires { IsWithinLimits tree.now.geometry }
    ensures { IsTrue result ↔ IsShaped tree.now }
{
    parent_at(tree, ROOT) == Some(ROOT) && is_freed(tree) && fits(tree)
}

// The parent of the file with a number, where it is a directory.
pub(crate) fn parent_at(tree: &PlainTree, number: u32) -> Option<u32>
    ensures { result ≡ parent_at tree.now number }
{
    match &tree.files.get(number)?.content {
        Content::Directory { parent, .. } => Some(*parent),
        _ => None,
    }
}

// Whether all that free numbers keep is in order.
fn is_freed(tree: &PlainTree) -> bool
    requires { IsWithinLimits tree.now.geometry }
    ensures { IsTrue result ↔ ((n : ℕ) (k : Kept) → table.get tree.now.freed n ≡ Some k → IsGoodKept tree.now n k) }
{
    for (number, kept) in tree.freed.iter() {
        if !is_kept(tree, *number, kept) {
            return false;
        }
    }
    true
}

// Whether a free number may keep this.
fn is_kept(tree: &PlainTree, number: u32, kept: &Kept) -> bool
    requires { IsWithinLimits tree.now.geometry }
    ensures { IsTrue result ↔ IsGoodKept tree.now number kept.now }
{
    is_number(&tree.geometry, number)
        && tree.files.get(number).is_none()
        && (kept.generation != 0 || kept.change != 0)
}

// Whether the files use no more blocks than there are.
fn fits(tree: &PlainTree) -> bool
    requires { IsWithinLimits tree.now.geometry }
    ensures { IsTrue result ↔ (used_in_all tree.now ≤ tree.now.geometry.memories * tree.now.geometry.blocks) }
{
    used_up_to_cap(tree) <= tree.geometry.memories * tree.geometry.blocks
}

// How many blocks the files use, up to the greatest number of a word.
fn used_up_to_cap(tree: &PlainTree) -> u32
    ensures { IsCapped result (used_in_all tree.now) }
{
    let mut used = 0;
    for (_, file) in tree.files.iter() {
        used = added(used, file.content.used());
    }
    used
}

// The sum of two numbers, up to the greatest number of a word.
fn added(sum: u32, more: usize) -> u32
    ensures { IsCapped result (sum + more) }
{
    match u32::try_from(more) {
        Ok(more) => sum.saturating_add(more),
        Err(_) => u32::MAX,
    }
}
