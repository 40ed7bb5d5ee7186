ghost use Rattle.std.specs.Prelude.{◌≡◌, ◌+◌, ◌^◌, ◌<◌, ℕ, ◌++◌, nat_lt, map, option_map, Some, IfOk};
ghost use Rattle.fs_rules.specs.Handle.{number_in};
ghost use Rattle.fs_rules.specs.Reading.{read_checks};
ghost use Rattle.fs_checks.specs.Facts.{bare};
ghost use Rattle.node_cache.specs.Cached.{held_of};
ghost use Rattle.plan_rules.specs.Changes as changes;
ghost use Rattle.plan_rules.specs.Changes.{change_steps};
ghost use Rattle.plan_rules.specs.Steps.{Checks};
ghost use Rattle.plan_rules.specs.Works.{IsWorkSet};
ghost use Rattle.plan_looks.specs.Goes.{Goes};
ghost use Rattle.content_laws.specs.Answers.{given_of, part_by, read_by};
ghost use Rattle.plan_content.specs.Steps.{read_steps};

use crate::attr::fattr_of;
use crate::blocks::{part_pieces, part_reads};
use crate::chains::look_chains_where;
use fs_rules::Cred;
use nfs_proto::Handle;
use node_cache::{Held, NoMemory};
use plan_forms::{AnswerForm, Reading};
use plan_looks::{LiveFile, Looks, Stop, look_file};
use std::alloc::Global;

/// The most bytes that a READ gives (RFC 1094, section 2.2.7).
const MAX_DATA_BYTES: u32 = 8_192;

/// READ: bytes of a file (RFC 1094, section 2.2.7).
///
/// # Errors
///
/// [`Stop::Need`] where a part is not held, and the refusals of the rules' checks, in their order.
pub fn read(
    alloc: Global,
    held: &Held,
    looks: &mut Looks,
    file: &Handle,
    offset: u32,
    count: u32,
    cred: &Cred,
) -> Result<Reading, Stop>
    requires { IsWorkSet held.now }
    ensures goes { (start : ℕ) → Goes held.now (read_steps held.now start file.now.0 offset count cred.now) looks.old looks.new result }
    ensures gives { IfOk result (λ r. r ≡ read_by held.now (number_in file.now.0) offset count) }
{
    let live = look_file(held, looks, file)?;
    let given = given_of(live.facts.size, offset, count);
    look_part(held, looks, live, given, cred)?;
    Ok(part_of(alloc, held, live, offset, given)?)
}

// Checks that a live file may be read, and looks at its chaining blocks where so many bytes are given.
fn look_part(
    held: &Held,
    looks: &mut Looks,
    live: LiveFile,
    given: u32,
    cred: &Cred,
) -> Result<(), Stop>
    requires { option_map (λ e. e.attrs) (held_of live.number held.now.entries) ≡ Some live.attrs }
    ensures { (start : ℕ) → Goes held.now (map Checks (read_checks (bare live.facts) cred.now) ++ change_steps held.now start (changes.reads live.number (nat_lt 0 given))) looks.old looks.new result }
{
    live.facts.check_read(cred)?;
    look_chains_where(held, looks, live.number, &live.attrs, given > 0)
}

// How many bytes are given of a file of this size: as many as are asked for, at most 8,192, and none past the size.
fn given_of(size: u32, offset: u32, count: u32) -> u32
    ensures exact { result ≡ given_of size offset count }
    ensures end { offset + result < 2 ^ 32 }
{
    let left = size.saturating_sub(offset);
    count.min(MAX_DATA_BYTES.min(left))
}

// What is read of them, and how they are joined.
fn part_of(
    alloc: Global,
    held: &Held,
    live: LiveFile,
    offset: u32,
    given: u32,
) -> Result<Reading, NoMemory>
    requires work { IsWorkSet held.now }
    requires end { offset + given < 2 ^ 32 }
    ensures { IfOk result (λ r. r ≡ part_by held.now live.number offset given live.attrs) }
{
    let items = part_reads(alloc, held, live.number, offset, given)?;
    let pieces = part_pieces(alloc, held, live.number, offset, given)?;
    Ok(Reading {
        items,
        form: AnswerForm::Part {
            attr: fattr_of(live.number, live.attrs),
            pieces,
        },
    })
}
