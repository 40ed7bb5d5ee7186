ghost use Rattle.std.specs.Prelude.{◌≡◌, ◌-◌, ◌^◌, ◌<◌, ℕ, true, None, Some, IfOk, IfErr};
ghost use Rattle.nfs_proto.specs.declared.call.Call.TheVariants.{SetAttr};
ghost use Rattle.nfs_proto.specs.declared.stamp.Stamp.{Stamp as AStamp};
ghost use Rattle.fs_rules.specs.Good.{IsGood};
ghost use Rattle.fs_rules.specs.Arguments.{file_of};
ghost use Rattle.fs_rules.specs.Attributes.{set_attr_checks, sets_something};
ghost use Rattle.fs_rules.specs.Statuses.{first_failure};
ghost use Rattle.fs_rules.specs.Respond.{respond};
ghost use Rattle.fs_decisions.specs.Steps.{Fits, refused};
ghost use Rattle.fs_decisions.specs.Limits.{change_limits};

use crate::limits::check_limits;
use crate::live::live_file;
use fs_checks::{Facts, Status, sets_something};
use fs_rules::{Cred, File, Handle, PlainTree, Sattr};

/// The file, where the call may set this.
pub fn may_set_attr<'a>(
    tree: &'a PlainTree,
    handle: &Handle,
    set: &Sattr,
    cred: &Cred,
) -> Result<&'a File, Status>
    requires { IsGood tree.now }
    ensures there { IfOk result (λ f. file_of tree.now handle.now.0 ≡ Some f.now) }
    ensures fits { IfOk result (λ f. Fits f.now) }
    ensures checked { IfOk result (λ f. first_failure (set_attr_checks f.now set.now cred.now) ≡ None) }
    ensures limits { sets_something set.now ≡ true → IfOk result (λ f. change_limits tree.now f.now.change 0 ≡ None) }
    ensures rises { sets_something set.now ≡ true → IfOk result (λ f. f.now.change < 2 ^ 64 - 1) }
    ensures err { IfErr result (λ s. (now : AStamp) → (start : ℕ) → respond tree.now (SetAttr handle.now set.now) cred.now now start ≡ refused tree.now s.0) }
{
    let file = live_file(tree, handle)?;
    Facts::of_file(file).check_set_attr(set, cred)?;
    if sets_something(set) {
        check_limits(tree, file.change, 0)?;
    }
    Ok(file)
}
