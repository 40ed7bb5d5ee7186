ghost use Rattle.std.specs.Prelude.{◌↔◌, IsTrue, IfOk};
ghost use Rattle.fs_rules.specs.Good.{IsGood};
ghost use Rattle.fs_rules.specs.Geometry.{IsWithinLimits};
ghost use Rattle.fs_good.specs.Places.{AreInPlace, IsShaped};
ghost use Rattle.fs_good.specs.Counts.{AreNamed};
ghost use Rattle.fs_good.specs.Reached.{AllLead};

use crate::counts::are_named;
use crate::place::are_in_place;
use crate::reached::lead;
use crate::shape::is_shaped;
use fs_rules::{NoMemory, PlainTree};
use std::alloc::Global;

/// Whether a tree is a file system (docs/FORMATS.md, "What images stand for"). [`NoMemory`]: there is no memory for the
/// counts.
pub fn is_good(alloc: Global, tree: &PlainTree) -> Result<bool, NoMemory>
    ensures { IfOk result (λ good. IsTrue good ↔ IsGood tree.now) }
{
    if is_ordered(alloc, tree) {
        are_connected(alloc, tree)
    } else {
        Ok(false)
    }
}

// Whether the geometry is within its limits, and each file is in place.
fn is_ordered(alloc: Global, tree: &PlainTree) -> bool
    ensures { IsTrue result ↔ (IsWithinLimits tree.now.geometry × (IsShaped tree.now × AreInPlace tree.now)) }
{
    tree.geometry.is_within_limits() && has_order(alloc, tree)
}

// Whether the root is there, and each file is in place.
fn has_order(alloc: Global, tree: &PlainTree) -> bool
    requires { IsWithinLimits tree.now.geometry }
    ensures { IsTrue result ↔ (IsShaped tree.now × AreInPlace tree.now) }
{
    is_shaped(tree) && are_in_place(alloc, tree)
}

// Whether the files, each of which is in place, are connected: each is named as often as it has to be, and parents
// lead to the root.
fn are_connected(alloc: Global, tree: &PlainTree) -> Result<bool, NoMemory>
    requires limits { IsWithinLimits tree.now.geometry }
    requires shaped { IsShaped tree.now }
    requires placed { AreInPlace tree.now }
    ensures { IfOk result (λ are. IsTrue are ↔ (AreNamed tree.now × AllLead tree.now)) }
{
    let named = are_named(alloc, tree)?;
    if named { lead(alloc, tree) } else { Ok(false) }
}
