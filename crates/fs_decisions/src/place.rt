ghost use Rattle.std.specs.Prelude.{◌≡◌, ◌/◌, ◌-◌, ◌^◌, ◌<◌, true, None, Some, IfOk, IfErr, OnOk};
ghost use Rattle.std.specs.FinMap as map;
ghost use Rattle.fs_rules.specs.declared.file.File.{File};
ghost use Rattle.fs_rules.specs.Good.{IsGood};
ghost use Rattle.fs_rules.specs.File.{is_directory};
ghost use Rattle.fs_rules.specs.Slots as slot;
ghost use Rattle.fs_decisions.specs.Limits.{is_pick, made_limits};

use crate::limits::{is_last, rise_to};
use crate::numbers::is_pick;
use crate::space::free_blocks;
use fs_checks::{Status, check_counts, check_rises};
use fs_rules::{File, PlainTree};

/// The number of a file that is made in a directory, which then has so many links and slots: the one that
/// was picked. The file uses `more` blocks.
///
/// # Errors
///
/// [`Status::FBIG`] where the directory was changed too often; [`Status::NOSPC`] where it would get more
/// links or slots than one can have, where no free number was picked, and where both find no room.
pub fn place_for(
    tree: &PlainTree,
    dir: &File,
    links: u32,
    slots: usize,
    more: usize,
    pick: Option<u32>,
) -> Result<u32, Status>
    requires { IsGood tree.now }
    ensures pick { IfOk result (λ number. pick ≡ Some number) }
    ensures ok { is_directory dir.now.content ≡ true → OnOk result (made_limits tree.now dir.now links slots more pick ≡ None) }
    ensures rises { OnOk result (dir.now.change < 2 ^ 64 - 1) }
    ensures err { is_directory dir.now.content ≡ true → IfErr result (λ status. made_limits tree.now dir.now links slots more pick ≡ Some status.0) }
{
    check_rises(is_last(dir.change))?;
    check_counts(links, slots)?;
    if !is_pick(tree, pick) {
        return Err(Status::NOSPC);
    }
    match (free_blocks(tree) as usize).checked_sub(rise_to(dir, slots)) {
        Some(left) if left >= more => pick.ok_or(Status::NOSPC),
        _ => Err(Status::NOSPC),
    }
}
