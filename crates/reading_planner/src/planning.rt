ghost use Rattle.std.specs.Prelude.{◌≡◌, IfOk};
ghost use Rattle.plan_rules.specs.Orders.{wanted};
ghost use Rattle.plan_rules.specs.Works.{IsWorkSet};
ghost use Rattle.read_laws.specs.Promise.{IsPlan};
ghost use Rattle.plan_read.specs.Readings.{IsReading};
ghost use Rattle.node_rules.specs.Plans.{IsServed, IsSound, IsWantTold, want_of};

use nfs_proto::{Call, Stamp};
use node_cache::{Held, NoMemory};
use plan_forms::Plan;
use rpc_msg::Cred;
use std::alloc::Global;

/// The plan of a call that reads and needs the file system: it needs the part that the call wants next, which what is held
/// tells; or it is final, keeps the promise of a plan, and what it can read makes an answer that a client can be told.
pub fn plan_reading(
    alloc: Global,
    call: &Call,
    cred: &Cred,
    now: Stamp,
    arrival: u32,
    held: &Held,
) -> Result<Plan, NoMemory>
    requires work { IsWorkSet held.now }
    requires served { IsServed held.now.geometry call.now }
    requires reads { IsReading call.now }
    ensures wanted { IfOk result (λ p. want_of p ≡ wanted held.now arrival call.now cred.now) }
    ensures told { IfOk result (IsWantTold held.now) }
    ensures sound { IfOk result IsSound }
    ensures keeps { IfOk result (IsPlan held.now arrival call.now cred.now now) }
{
    plan_read::plan(alloc, call, cred, now, arrival, held)
}
