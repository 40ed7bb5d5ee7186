ghost use Rattle.std.specs.Prelude.{◌≡◌, ℕ, None, Some, IfOk, IfErr, OnOk};
ghost use Rattle.nfs_proto.specs.declared.stamp.Stamp.{Stamp as AStamp};
ghost use Rattle.fs_rules.specs.Good.{IsGood};
ghost use Rattle.fs_rules.specs.Statuses.{first_failure};
ghost use Rattle.fs_rules.specs.File.{slots_of};
ghost use Rattle.fs_rules.specs.Slots.{file_named};
ghost use Rattle.fs_rules.specs.Respond.{respond};
ghost use Rattle.fs_decisions.specs.Steps.{refused};
ghost use Rattle.fs_decisions.specs.Removing.{removal_of, removal_checks, MayRemove};

use crate::directory::directory_of;
use crate::limits::{is_last, is_spent};
use crate::names::{is_directory_at, is_in_use_at, number_named};
use fs_checks::{Removal, Status};
use fs_rules::{Cred, File, Handle, PlainTree};

/// The number of the file that loses a name, where REMOVE or RMDIR may take it.
///
/// # Errors
///
/// The status of the first check that fails: of the arguments, of the name and its file, and
/// [`Status::FBIG`] where the directory or the file was changed too often.
pub fn removed(
    tree: &PlainTree,
    removal: Removal,
    handle: &Handle,
    name: &[u8],
    cred: &Cred,
) -> Result<u32, Status>
    requires { IsGood tree.now }
    ensures ok { IfOk result (λ m. (now : AStamp) → (start : ℕ) → MayRemove tree.now removal handle.now name.now cred.now now start m) }
    ensures err { IfErr result (λ status. (now : AStamp) → (start : ℕ) → respond tree.now (removal_of removal handle.now name.now) cred.now now start ≡ refused tree.now status.0) }
{
    let dir = directory_of(tree, handle, name, Status::NOENT, cred)?;
    let file = file_to_remove(tree, removal, dir, name)?;
    if is_last(dir.change) || is_spent(tree, file) {
        return Err(Status::FBIG);
    }
    Ok(file)
}

// The number of the file of a name that is there, where its kind is the right one.
#[tactic(auto, unfolding(fs_rules::specs::Statuses::first_failure))]
fn file_to_remove(
    tree: &PlainTree,
    removal: Removal,
    dir: &File,
    name: &[u8],
) -> Result<u32, Status>
    requires { IsGood tree.now }
    ensures named { IfOk result (λ m. file_named (slots_of dir.now.content) name.now ≡ Some m) }
    ensures passes { OnOk result (first_failure (removal_checks removal tree.now dir.now name.now) ≡ None) }
    ensures fails { IfErr result (λ status. first_failure (removal_checks removal tree.now dir.now name.now) ≡ Some status.0) }
{
    removal.check_name(name)?;
    let Some(file) = number_named(&dir.content, name) else {
        return Err(Status::NOENT);
    };
    removal.check_file(is_directory_at(tree, file), is_in_use_at(tree, file))?;
    Ok(file)
}
