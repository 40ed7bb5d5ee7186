ghost use Rattle.std.specs.Prelude.{◌≡◌, ◌-◌, ◌^◌, ◌<◌, ◌≤◌, ℕ, None, Some, IfOk, IfErr, OnOk, false, ◌==◌};
ghost use Rattle.std.specs.FinMap as map;
ghost use Rattle.nfs_proto.specs.declared.call.Call.TheVariants.{Rename};
ghost use Rattle.nfs_proto.specs.declared.stamp.Stamp.{Stamp as AStamp};
ghost use Rattle.fs_rules.specs.declared.file.File.{File as AFile};
ghost use Rattle.fs_rules.specs.Access.{may};
ghost use Rattle.fs_rules.specs.Good.{IsGood};
ghost use Rattle.fs_rules.specs.File.{slots_of, is_directory};
ghost use Rattle.fs_rules.specs.Slots.{file_named};
ghost use Rattle.fs_rules.specs.Statuses.{first_failure};
ghost use Rattle.fs_rules.specs.Arguments.{file_of, argument_checks};
ghost use Rattle.fs_rules.specs.Respond.{respond};
ghost use Rattle.fs_checks.specs.Rows.{pair_row};
ghost use Rattle.fs_checks.specs.Verdict.{verdict};
ghost use Rattle.fs_decisions.specs.Steps.{refused};
ghost use Rattle.fs_decisions.specs.Renaming.{source_row, replaced_is, over_row, kind_check, move_check, goes_across, fate_of, replaced_at, plan_of, spent_by, CanRise, Decides};

use crate::chain::{check_chain, is_at};
use crate::decision::Decision;
use crate::limits::{check_growth, is_last, is_spent, slots_with};
use crate::live::{file_at, live_file};
use crate::names::{has_names, is_directory_at, number_named};
use fs_checks::{Facts, Status, check_pair, is_dots};
use fs_edits::{Plan, Replaced, has_other_names, is_directory};
use fs_rules::{Cred, File, Handle, PlainTree, number_at};

/// What the rules say of a RENAME of a name of one directory to a name of another one, or of the same (RFC
/// 1094, section 2.2.12).
///
/// # Errors
///
/// The status of the first check that fails: of the arguments, of the names and their files, and of the
/// limits.
pub fn decided(
    tree: &PlainTree,
    from: &Handle,
    from_name: &[u8],
    to: &Handle,
    to_name: &[u8],
    cred: &Cred,
) -> Result<Decision, Status>
    requires { IsGood tree.now }
    ensures ok { IfOk result (λ decision. Decides tree.now from.now from_name.now to.now to_name.now cred.now decision) }
    ensures err { IfErr result (λ status. (now : AStamp) → (start : ℕ) → respond tree.now (Rename from.now from_name.now to.now to_name.now) cred.now now start ≡ refused tree.now status.0) }
{
    let dirs = directories_of(tree, from, from_name, to, to_name, cred)?;
    let (from_dir, to_dir) = dirs;
    let files = files_of(from_dir, from_name, to_dir, to_name)?;
    let (source, replaced) = files;
    if is_at(replaced, source) {
        return Ok(Decision::Same);
    }
    let (a, b) = (number_at(from), number_at(to));
    check_move(tree, a, b, source, replaced)?;
    let plan = plan(tree, a, b, to_dir, source, replaced);
    let is_spent = is_any_spent(tree, from_dir, to_dir, source, replaced);
    let slots = slots_with(&to_dir.content, to_name);
    check_growth(tree, is_spent, plan.links, to_dir, slots)?;
    Ok(Decision::Moves(plan))
}

// The two directories, where the arguments pass their checks; else the status of the first that fails.
fn directories_of<'a>(
    tree: &'a PlainTree,
    from: &Handle,
    from_name: &[u8],
    to: &Handle,
    to_name: &[u8],
    cred: &Cred,
) -> Result<(&'a File, &'a File), Status>
    requires { IsGood tree.now }
    ensures there { IfOk result (λ r. (file_of tree.now from.now.0 ≡ Some r.0.now) × (file_of tree.now to.now.0 ≡ Some r.1.now)) }
    ensures passes { IfOk result (λ r. first_failure (pair_row r.0.now from_name.now r.1.now to_name.now cred.now) ≡ None) }
    ensures fails { IfErr result (λ status. first_failure (argument_checks tree.now (Rename from.now from_name.now to.now to_name.now) cred.now) ≡ Some status.0) }
{
    let from_dir = live_file(tree, from)?;
    let to_dir = live_file(tree, to)?;
    let from_facts = Facts::of_file(from_dir);
    let to_facts = Facts::of_file(to_dir);
    check_pair(&from_facts, from_name, &to_facts, to_name, cred)?;
    Ok((from_dir, to_dir))
}

// The numbers of the file that is moved and of the one that has the second name, if there is one; or why
// the names are none of a RENAME.
#[tactic(auto, unfolding(fs_rules::specs::Statuses::first_failure))]
fn files_of(
    from_dir: &File,
    from_name: &[u8],
    to_dir: &File,
    to_name: &[u8],
) -> Result<(u32, Option<u32>), Status>
    ensures named { IfOk result (λ r. (file_named (slots_of from_dir.now.content) from_name.now ≡ Some r.0) × (file_named (slots_of to_dir.now.content) to_name.now ≡ r.1)) }
    ensures passes { OnOk result (first_failure (source_row from_name.now to_name.now (file_named (slots_of from_dir.now.content) from_name.now)) ≡ None) }
    ensures fails { IfErr result (λ status. first_failure (source_row from_name.now to_name.now (file_named (slots_of from_dir.now.content) from_name.now)) ≡ Some status.0) }
{
    if is_dots(from_name) || is_dots(to_name) {
        return Err(Status::ACCES);
    }
    match number_named(&from_dir.content, from_name) {
        Some(source) => Ok((source, number_named(&to_dir.content, to_name))),
        None => Err(Status::NOENT),
    }
}

// That the file may be moved from one directory to the other, over the one that is replaced.
fn check_move(
    tree: &PlainTree,
    from: u32,
    to: u32,
    source: u32,
    replaced: Option<u32>,
) -> Result<(), Status>
    requires { IsGood tree.now }
    ensures { result ≡ verdict (move_check tree.now from to source replaced) }
{
    check_kind(tree, source, replaced)?;
    if goes_across(tree, from, to, source) {
        return check_chain(tree, to, source);
    }
    Ok(())
}

// Whether a directory goes from one directory to another.
fn goes_across(tree: &PlainTree, from: u32, to: u32, source: u32) -> bool
    requires { IsGood tree.now }
    ensures { result ≡ goes_across tree.now from to source }
{
    is_directory_at(tree, source) && from != to
}

// That the file may be moved over the one that is replaced, if there is one.
fn check_kind(tree: &PlainTree, source: u32, replaced: Option<u32>) -> Result<(), Status>
    requires { IsGood tree.now }
    ensures { result ≡ verdict (kind_check tree.now source replaced) }
{
    let Some(number) = replaced else {
        return Ok(());
    };
    match file_at(tree, number) {
        Some(file) => check_over(is_directory_at(tree, source), file),
        None => Ok(()),
    }
}

// That a directory, or another file, may be moved over a file.
fn check_over(is_dir: bool, replaced: &File) -> Result<(), Status>
    ensures { result ≡ verdict (first_failure (over_row is_dir replaced.now)) }
{
    Facts::of_file(replaced).check_over(is_dir, has_names(&replaced.content))
}

// What is moved, and what becomes of the file that is replaced.
fn plan(
    tree: &PlainTree,
    from: u32,
    to: u32,
    to_dir: &File,
    source: u32,
    replaced: Option<u32>,
) -> Plan
    requires good { IsGood tree.now }
    requires links { to_dir.now.links ≤ 32000 }
    ensures { result ≡ plan_of tree.now from to to_dir.now source replaced }
{
    let gained = u32::from(goes_across(tree, from, to, source));
    let lost = u32::from(is_directory_replaced(tree, replaced));
    Plan {
        from,
        to,
        source,
        along: u32::from(is_directory_at(tree, source)),
        links: (to_dir.links + gained).saturating_sub(lost),
        replaced: replaced_at(tree, replaced),
    }
}

// Whether a directory is replaced.
fn is_directory_replaced(tree: &PlainTree, replaced: Option<u32>) -> bool
    requires { IsGood tree.now }
    ensures { result ≡ replaced_is tree.now replaced (λ r. is_directory r.content) }
{
    match replaced {
        Some(number) => is_directory_at(tree, number),
        None => false,
    }
}

// What becomes of the file that is replaced, if there is one.
fn replaced_at(tree: &PlainTree, replaced: Option<u32>) -> Replaced
    requires { IsGood tree.now }
    ensures { result ≡ replaced_at tree.now replaced }
{
    let Some(number) = replaced else {
        return Replaced::Nothing;
    };
    match file_at(tree, number) {
        Some(file) => fate_of(number, file),
        None => Replaced::Nothing,
    }
}

// What becomes of a file that loses its name, or of an empty directory.
fn fate_of(number: u32, file: &File) -> Replaced
    ensures { result ≡ fate_of number file.now }
{
    if is_directory(&file.content) || !has_other_names(file) {
        Replaced::IsFreed(number)
    } else {
        Replaced::LosesLink(number)
    }
}

// Whether a change number that would rise has its last value.
fn is_any_spent(
    tree: &PlainTree,
    from_dir: &File,
    to_dir: &File,
    source: u32,
    replaced: Option<u32>,
) -> bool
    requires { IsGood tree.now }
    ensures value { result ≡ spent_by tree.now from_dir.now to_dir.now source replaced }
    ensures rises { result ≡ false → CanRise tree.now from_dir.now to_dir.now source replaced }
{
    is_last(from_dir.change)
        || is_last(to_dir.change)
        || is_spent(tree, source)
        || is_replaced_spent(tree, replaced)
}

// Whether the change number of the file that is replaced, if there is one, has its last value.
fn is_replaced_spent(tree: &PlainTree, replaced: Option<u32>) -> bool
    requires { IsGood tree.now }
    ensures value { result ≡ replaced_is tree.now replaced (λ r. r.change == 2 ^ 64 - 1) }
    ensures rises { result ≡ false → (n : ℕ) → (r : AFile) → replaced ≡ Some n → map.get tree.now.files n ≡ Some r → r.change < 2 ^ 64 - 1 }
{
    match replaced {
        Some(number) => is_spent(tree, number),
        None => false,
    }
}
