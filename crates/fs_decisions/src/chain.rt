ghost use Rattle.std.specs.Prelude.{◌≡◌, ◌==◌, false, option_and_then};
ghost use Rattle.std.specs.Option.{option_map_or};
ghost use Rattle.fs_rules.specs.Good.{IsGood, parent_at};
ghost use Rattle.fs_rules.specs.Statuses.{first_failure};
ghost use Rattle.fs_checks.specs.Verdict.{verdict};
ghost use Rattle.fs_decisions.specs.Renaming.{chain_row};

use crate::live::file_at;
use crate::names::parent_of;
use fs_checks::{Status, check_way};
use fs_rules::{PlainTree, ROOT};

/// The most moves to a parent that lead from a directory to the root, for a directory to be moved into it.
const MAX_PARENTS: u32 = 200;

/// That the directory `source` may be moved into the directory `dir`.
///
/// # Errors
///
/// [`Status::NAMETOOLONG`] where more than [`MAX_PARENTS`] moves to a parent lead from there to the root, and
/// [`Status::IO`] where `source` is on that way.
pub(crate) fn check_chain(tree: &PlainTree, dir: u32, source: u32) -> Result<(), Status>
    requires { IsGood tree.now }
    ensures { result ≡ verdict (first_failure (chain_row tree.now dir source)) }
{
    let mut at = Some(dir);
    let mut is_above = is_at(at, source);
    for _ in 0..MAX_PARENTS {
        at = parent_of_any(tree, at);
        is_above |= is_at(at, source);
    }
    check_way(is_at(at, ROOT), is_above)
}

/// Whether a number is there and is this one.
pub(crate) fn is_at(at: Option<u32>, number: u32) -> bool
    ensures { result ≡ option_map_or (λ a. a == number) at false }
{
    match at {
        Some(at) => at == number,
        None => false,
    }
}

// The directory in which the directory with a number lies, if there is one.
fn parent_of_any(tree: &PlainTree, at: Option<u32>) -> Option<u32>
    requires { IsGood tree.now }
    ensures { result ≡ option_and_then (parent_at tree.now) at }
{
    parent_of(&file_at(tree, at?)?.content)
}
