ghost use Rattle.std.specs.Prelude.{◌≡◌, ◌-◌, ◌^◌, ◌<◌, ◌≤◌, ◌==◌, ◌||◌, ℕ, false, IfErr, OnOk};
ghost use Rattle.nfs_proto.specs.declared.call.Call.TheVariants.{Link};
ghost use Rattle.nfs_proto.specs.declared.stamp.Stamp.{Stamp as AStamp};
ghost use Rattle.fs_rules.specs.Good.{IsGood};
ghost use Rattle.fs_rules.specs.Statuses.{first_failure};
ghost use Rattle.fs_rules.specs.Names.{link_checks};
ghost use Rattle.fs_rules.specs.Respond.{respond};
ghost use Rattle.fs_checks.specs.Verdict.{verdict};
ghost use Rattle.fs_decisions.specs.Steps.{refused};
ghost use Rattle.fs_decisions.specs.Linking.{link_limits, MayLink};

use crate::directory::directory_of;
use crate::limits::{check_growth, is_last, slots_with};
use crate::live::live_file;
use crate::names::is_taken;
use fs_checks::{Facts, Status};
use fs_rules::{Cred, File, Handle, PlainTree};

/// That the call may give the name.
pub fn may_link(
    tree: &PlainTree,
    file: &Handle,
    dir: &Handle,
    name: &[u8],
    cred: &Cred,
) -> Result<(), Status>
    requires { IsGood tree.now }
    ensures err { IfErr result (λ status. (now : AStamp) → (start : ℕ) → respond tree.now (Link file.now dir.now name.now) cred.now now start ≡ refused tree.now status.0) }
    ensures ok { OnOk result ((now : AStamp) → (start : ℕ) → MayLink tree.now file.now dir.now name.now cred.now now start) }
{
    let linked = live_file(tree, file)?;
    let dir = directory_of(tree, dir, name, Status::ACCES, cred)?;
    check_name_free(linked, dir, name)?;
    check_room(tree, linked, dir, slots_with(&dir.content, name))
}

// That a file, which is no directory, may get a name in a directory, which does not have it.
fn check_name_free(file: &File, dir: &File, name: &[u8]) -> Result<(), Status>
    ensures { result ≡ verdict (first_failure (link_checks file.now dir.now name.now)) }
{
    Facts::of_file(file).check_link(is_taken(&dir.content, name))
}

// That no limit forbids that a file gets a name in a directory, which has so many slots then.
fn check_room(tree: &PlainTree, file: &File, dir: &File, slots: usize) -> Result<(), Status>
    requires good { IsGood tree.now }
    requires links { file.now.links ≤ 32000 }
    ensures exact { result ≡ verdict (link_limits tree.now file.now dir.now slots) }
    ensures rises { OnOk result ((dir.now.change < 2 ^ 64 - 1) × (file.now.change < 2 ^ 64 - 1)) }
{
    check_growth(tree, is_either_last(dir, file), file.links + 1, dir, slots)
}

// Whether the change number of one of two files has its last value.
fn is_either_last(a: &File, b: &File) -> bool
    ensures value { result ≡ ((a.now.change == 2 ^ 64 - 1) || (b.now.change == 2 ^ 64 - 1)) }
    ensures rises { result ≡ false → (a.now.change < 2 ^ 64 - 1) × (b.now.change < 2 ^ 64 - 1) }
{
    is_last(a.change) || is_last(b.change)
}
