ghost use Rattle.std.specs.Prelude.{◌≡◌, None, Some, IfOk, IfErr, OnOk};
ghost use Rattle.fs_rules.specs.Good.{IsGood};
ghost use Rattle.fs_rules.specs.Statuses.{first_failure};
ghost use Rattle.fs_rules.specs.Arguments.{file_of};
ghost use Rattle.fs_decisions.specs.Steps.{Fits, named, named_row};

use crate::live::live_file;
use fs_checks::{Facts, Status};
use fs_rules::{Cred, File, Handle, PlainTree, SEARCH, WRITE};

/// The directory of a name that a call gives or takes away, where the arguments pass their checks.
///
/// # Errors
///
/// The status of the first check that fails: of the handle, the directory, the name, which is answered with
/// `unfit` where its form is none of a name, and the right to write and search the directory.
pub fn directory_of<'a>(
    tree: &'a PlainTree,
    handle: &Handle,
    name: &[u8],
    unfit: Status,
    cred: &Cred,
) -> Result<&'a File, Status>
    requires { IsGood tree.now }
    ensures there { IfOk result (λ d. file_of tree.now handle.now.0 ≡ Some d.now) }
    ensures fits { IfOk result (λ d. Fits d.now) }
    ensures passes { OnOk result (first_failure (named_row tree.now cred.now (named handle.now.0 name.now unfit.0)) ≡ None) }
    ensures fails { IfErr result (λ status. first_failure (named_row tree.now cred.now (named handle.now.0 name.now unfit.0)) ≡ Some status.0) }
{
    let dir = live_file(tree, handle)?;
    Facts::of_file(dir).check_named(name, unfit, cred, WRITE | SEARCH)?;
    Ok(dir)
}
