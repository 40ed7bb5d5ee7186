ghost use Rattle.std.specs.Prelude.{◌≡◌, option_map, Some, IfOk};
ghost use Rattle.fs_rules.specs.Handle.{number_in};
ghost use Rattle.fs_checks.specs.Facts.{bare};
ghost use Rattle.node_cache.specs.Cached.{held_of};
ghost use Rattle.plan_looks.specs.Goes.{Goes};
ghost use Rattle.content_laws.specs.Answers.{read_dir_by};
ghost use Rattle.plan_content.specs.Steps.{dir_steps, read_dir_steps};

use crate::attr::ready;
use crate::listing::list_names;
use fs_rules::Cred;
use nfs_proto::Handle;
use node_cache::Held;
use plan_forms::Reading;
use plan_looks::{LiveFile, Looks, Stop, look_file, look_names};
use std::alloc::Global;

/// READDIR: the names of a directory behind a cookie (RFC 1094, section 2.2.17).
///
/// # Errors
///
/// [`Stop::Need`] where a part is not held, and the refusals of the rules' checks, in their order.
pub fn read_dir(
    alloc: Global,
    held: &Held,
    looks: &mut Looks,
    dir: &Handle,
    cookie: u32,
    count: u32,
    cred: &Cred,
) -> Result<Reading, Stop>
    ensures goes { Goes held.now (read_dir_steps held.now dir.now.0 cred.now) looks.old looks.new result }
    ensures gives { IfOk result (λ r. r ≡ read_dir_by held.now (number_in dir.now.0) cookie count) }
{
    let live = look_file(held, looks, dir)?;
    look_listed(held, looks, live, cred)?;
    let answer = list_names(alloc, held, live.number, &live.attrs, cookie, count)?;
    Ok(ready(alloc, answer))
}

// Checks that a live file may be listed, and looks at all its slots.
fn look_listed(held: &Held, looks: &mut Looks, live: LiveFile, cred: &Cred) -> Result<(), Stop>
    requires { option_map (λ e. e.attrs) (held_of live.number held.now.entries) ≡ Some live.attrs }
    ensures { Goes held.now (dir_steps held.now cred.now live.number (bare live.facts)) looks.old looks.new result }
{
    live.facts.check_list(cred)?;
    look_names(held, looks, live.number, &live.attrs)
}
