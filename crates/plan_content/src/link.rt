ghost use Rattle.std.specs.Prelude.{◌≡◌, ℕ, option_map, Some, IfOk};
ghost use Rattle.fs_rules.specs.Handle.{number_in};
ghost use Rattle.fs_rules.specs.Reading.{read_link_checks};
ghost use Rattle.fs_rules.specs.Statuses.{first_failure};
ghost use Rattle.fs_checks.specs.Facts.{bare};
ghost use Rattle.fs_checks.specs.Verdict.{verdict};
ghost use Rattle.node_cache.specs.Cached.{held_of};
ghost use Rattle.plan_rules.specs.Works.{IsWorkSet};
ghost use Rattle.plan_looks.specs.Goes.{Goes};
ghost use Rattle.content_laws.specs.Answers.{path_by, read_link_by};
ghost use Rattle.plan_content.specs.Steps.{link_steps, read_link_steps};

use crate::blocks::{part_pieces, part_reads};
use crate::chains::look_chains_where;
use fs_checks::{Facts, Kind, Status};
use nfs_proto::Handle;
use node_cache::{Held, NoMemory};
use plan_forms::{AnswerForm, Reading};
use plan_looks::{LiveFile, Looks, Stop, look_file};
use std::alloc::Global;

/// READLINK: the path in a symbolic link (RFC 1094, section 2.2.6).
///
/// # Errors
///
/// [`Stop::Need`] where a part is not held, [`Status::STALE`] and [`Status::NXIO`] by the checks of the rules.
pub fn read_link(
    alloc: Global,
    held: &Held,
    looks: &mut Looks,
    file: &Handle,
) -> Result<Reading, Stop>
    requires { IsWorkSet held.now }
    ensures goes { (start : ℕ) → Goes held.now (read_link_steps held.now start file.now.0) looks.old looks.new result }
    ensures gives { IfOk result (λ r. r ≡ read_link_by held.now (number_in file.now.0)) }
{
    let live = look_file(held, looks, file)?;
    look_path(held, looks, live)?;
    Ok(path_of(alloc, held, live)?)
}

// Checks that a live file is a link, and looks at the chaining blocks of its path.
fn look_path(held: &Held, looks: &mut Looks, live: LiveFile) -> Result<(), Stop>
    requires { option_map (λ e. e.attrs) (held_of live.number held.now.entries) ≡ Some live.attrs }
    ensures { (start : ℕ) → Goes held.now (link_steps held.now start live.number (bare live.facts)) looks.old looks.new result }
{
    check_link(&live.facts)?;
    look_chains_where(held, looks, live.number, &live.attrs, live.facts.size > 0)
}

// The check of READLINK: a file of another kind has no path.
#[tactic(auto, unfolding(fs_rules::specs::Statuses::first_failure))]
fn check_link(facts: &Facts) -> Result<(), Status>
    ensures { result ≡ verdict (first_failure (read_link_checks (bare facts.now))) }
{
    match facts.kind {
        Kind::Link => Ok(()),
        _ => Err(Status::NXIO),
    }
}

// What is read of the path, and how it is joined.
fn path_of(alloc: Global, held: &Held, live: LiveFile) -> Result<Reading, NoMemory>
    requires { IsWorkSet held.now }
    ensures { IfOk result (λ r. r ≡ path_by held.now live.number live.attrs) }
{
    let size = live.attrs.size;
    let items = part_reads(alloc, held, live.number, 0, size)?;
    let pieces = part_pieces(alloc, held, live.number, 0, size)?;
    Ok(Reading {
        items,
        form: AnswerForm::Path(pieces),
    })
}
