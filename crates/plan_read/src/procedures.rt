ghost use Rattle.std.specs.Prelude.{◌≡◌, ℕ, IfOk};
ghost use Rattle.plan_rules.specs.Orders.{order};
ghost use Rattle.plan_rules.specs.Works.{IsWorkSet};
ghost use Rattle.plan_looks.specs.Goes.{Goes};
ghost use Rattle.plan_read.specs.Readings.{IsReading, reading_of};

use crate::lookup::lookup;
use crate::space::stat_fs;
use fs_rules::Cred;
use nfs_proto::Call;
use node_cache::Held;
use plan_content::{get_attr, read, read_dir, read_link};
use plan_forms::Reading;
use plan_looks::{Looks, Stop};
use std::alloc::Global;

/// What a call reads and answers, once it wants no part and no check fails.
pub(crate) fn reading(
    alloc: Global,
    held: &Held,
    looks: &mut Looks,
    call: &Call,
    cred: &Cred,
) -> Result<Reading, Stop>
    requires work { IsWorkSet held.now }
    requires call { IsReading call.now }
    ensures goes { (arrival : ℕ) → Goes held.now (order held.now arrival call.now cred.now) looks.old looks.new result }
    ensures gives { IfOk result (λ r. r ≡ reading_of held.now call.now) }
{
    match call {
        Call::GetAttr { file } => get_attr(alloc, held, looks, file),
        Call::Lookup { dir, name } => lookup(alloc, held, looks, dir, name.as_slice(), cred),
        Call::ReadLink { file } => read_link(alloc, held, looks, file),
        Call::Read {
            file,
            offset,
            count,
            ..
        } => read(alloc, held, looks, file, *offset, *count, cred),
        Call::ReadDir { dir, cookie, count } => {
            read_dir(alloc, held, looks, dir, *cookie, *count, cred)
        }
        Call::StatFs { file } => stat_fs(alloc, held, looks, file),
        _ => unreachable!(),
    }
}
