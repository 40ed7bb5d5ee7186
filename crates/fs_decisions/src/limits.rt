ghost use Rattle.std.specs.Prelude.{◌≡◌, ℕ, ◌^◌, ◌-◌, ◌<◌, ◌≤◌, ◌==◌, length, Some, true, false, OnOk};
ghost use Rattle.std.specs.FinMap as map;
ghost use Rattle.fs_rules.specs.declared.file.File.{File as AFile};
ghost use Rattle.fs_rules.specs.Good.{IsGood};
ghost use Rattle.fs_rules.specs.File.{used, is_directory, slots_of};
ghost use Rattle.fs_rules.specs.Slots as slot;
ghost use Rattle.fs_rules.specs.Numbers.{free_blocks};
ghost use Rattle.fs_checks.specs.Verdict.{verdict};
ghost use Rattle.fs_decisions.specs.Limits.{change_limits, grown_limits, is_spent_at, used_by};

use crate::live::file_at;
use crate::space::free_blocks;
use fs_checks::{Status, check_counts, check_rises, check_room};
use fs_content::slots_after_put;
use fs_rules::{Content, File, PlainTree, SLOTS_PER_BLOCK, chains_up_to};

/// That a file that was changed so often may be changed again, and grow by so many blocks.
///
/// # Errors
///
/// [`Status::FBIG`] where it was changed too often, and [`Status::NOSPC`] where so many blocks are not free.
pub fn check_limits(tree: &PlainTree, change: u64, rise: usize) -> Result<(), Status>
    requires { IsGood tree.now }
    ensures exact { result ≡ verdict (change_limits tree.now change rise) }
    ensures rises { OnOk result (change < 2 ^ 64 - 1) }
{
    check_rises(is_last(change))?;
    check_room(free_blocks(tree) as usize, rise)
}

/// That a directory may get so many links and slots, where a change number that would rise may be spent.
///
/// # Errors
///
/// [`Status::FBIG`] where it is, and [`Status::NOSPC`] where there is no room.
pub(crate) fn check_growth(
    tree: &PlainTree,
    is_spent: bool,
    links: u32,
    dir: &File,
    slots: usize,
) -> Result<(), Status>
    requires { IsGood tree.now }
    ensures exact { result ≡ verdict (grown_limits tree.now is_spent links dir.now slots) }
    ensures rises { OnOk result (is_spent ≡ false) }
{
    check_rises(is_spent)?;
    check_counts(links, slots)?;
    check_room(free_blocks(tree) as usize, rise_to(dir, slots))
}

/// By how many blocks a directory grows where it gets so many slots.
pub(crate) fn rise_to(dir: &File, slots: usize) -> usize
    requires { slots ≤ 7650 }
    ensures exact { result ≡ used_by slots - used dir.now.content }
    ensures few { result ≤ 512 }
{
    used_by(slots).saturating_sub(dir.content.used())
}

// How many blocks a directory with so many slots uses.
fn used_by(slots: usize) -> usize
    requires { slots ≤ 7650 }
    ensures exact { result ≡ used_by slots }
    ensures few { result ≤ 512 }
{
    let count = slots / SLOTS_PER_BLOCK;
    count + chains_up_to(count.checked_sub(1))
}

/// How many slots a directory has where a name is put; another file has none.
pub fn slots_with(content: &Content, name: &[u8]) -> usize
    ensures { (number : ℕ) → is_directory content.now ≡ true → length (slots_of content.now) ≤ 7650 → result ≡ length (slot.put_name (slots_of content.now) (record { name = name.now; file = number })) }
{
    match content {
        Content::Directory { slots, .. } => slots_after_put(slots, name),
        _ => 0,
    }
}

/// Whether the file with a number may not be changed again.
pub(crate) fn is_spent(tree: &PlainTree, number: u32) -> bool
    requires { IsGood tree.now }
    ensures exact { result ≡ is_spent_at tree.now number }
    ensures value { (f : AFile) → map.get tree.now.files number ≡ Some f → result ≡ (f.change == 2 ^ 64 - 1) }
    ensures rises { result ≡ false → (f : AFile) → map.get tree.now.files number ≡ Some f → f.change < 2 ^ 64 - 1 }
{
    match file_at(tree, number) {
        Some(file) => is_last(file.change),
        None => false,
    }
}

/// Whether a change number has its last value.
pub(crate) fn is_last(change: u64) -> bool
    ensures value { result ≡ (change == 2 ^ 64 - 1) }
    ensures rises { result ≡ false → change < 2 ^ 64 - 1 }
{
    change == u64::MAX
}
