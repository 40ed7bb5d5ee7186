ghost use Rattle.std.specs.Prelude.{◌≡◌, Some, None, IfSome, IfOk, IfErr, OnErr};
ghost use Rattle.fs_rules.specs.Statuses.{stale};
ghost use Rattle.std.specs.Option.{option_copied};
ghost use Rattle.std.specs.FinMap as map;
ghost use Rattle.fs_rules.specs.Good.{IsGood};
ghost use Rattle.fs_rules.specs.Arguments.{file_of};
ghost use Rattle.fs_decisions.specs.Steps.{Fits};

use fs_checks::Status;
use fs_rules::{File, Handle, PlainTree, handle_of, number_at};

/// The file that a handle names: it lives, and the handle is that of its number and generation
/// (`docs/FORMATS.md`, "Handles").
pub fn file_of<'a>(tree: &'a PlainTree, handle: &Handle) -> Option<&'a File>
    requires { IsGood tree.now }
    ensures value { option_copied result ≡ file_of tree.now handle.now.0 }
    ensures fits { IfSome result (λ f. Fits f.now) }
{
    let number = number_at(handle);
    let file = file_at(tree, number)?;
    if *handle == handle_of(number, file.generation) {
        Some(file)
    } else {
        None
    }
}

/// The file that a handle names.
///
/// # Errors
///
/// [`Status::STALE`] where it names none.
pub(crate) fn live_file<'a>(tree: &'a PlainTree, handle: &Handle) -> Result<&'a File, Status>
    requires { IsGood tree.now }
    ensures there { IfOk result (λ f. file_of tree.now handle.now.0 ≡ Some f.now) }
    ensures fits { IfOk result (λ f. Fits f.now) }
    ensures none { OnErr result (file_of tree.now handle.now.0 ≡ None) }
    ensures stale { IfErr result (λ s. s.0 ≡ stale) }
{
    match file_of(tree, handle) {
        Some(file) => Ok(file),
        None => Err(Status::STALE),
    }
}

/// The file with a number, if it lives.
pub fn file_at(tree: &PlainTree, number: u32) -> Option<&File>
    requires { IsGood tree.now }
    ensures value { option_copied result ≡ map.get tree.now.files number }
    ensures fits { IfSome result (λ f. Fits f.now) }
{
    tree.files.get(number)
}
