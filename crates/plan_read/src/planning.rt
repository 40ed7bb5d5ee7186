ghost use Rattle.std.specs.Prelude.{◌≡◌, ℕ, [], IfOk};
ghost use Rattle.plan_rules.specs.Works.{IsWorkSet};
ghost use Rattle.read_laws.specs.Promise.{IsPlan};
ghost use Rattle.plan_read.specs.Finals.{IsFinalOf, IsReadPlan, IsStopped};
ghost use Rattle.plan_read.specs.Readings.{IsReading};

use crate::procedures::reading;
use fs_rules::Cred;
use mini_tx::Numbers;
use nfs_proto::{Answer, Call, Stamp};
use node_cache::{Held, NoMemory};
use plan_content::ready;
use plan_forms::{Plan, Reading};
use plan_looks::{Looks, Stop, finished};
use std::alloc::Global;

/// The plan of a call that reads: the part that it wants next, or its final minitransaction, which reads what the call
/// reads and keeps the promise of a plan. The number of its arrival and the moment matter to calls that change something
/// alone.
pub fn plan(
    alloc: Global,
    call: &Call,
    cred: &Cred,
    now: Stamp,
    arrival: u32,
    held: &Held,
) -> Result<Plan, NoMemory>
    requires work { IsWorkSet held.now }
    requires call { IsReading call.now }
    ensures reads { IfOk result (IsReadPlan held.now arrival call.now cred.now) }
    ensures keeps { IfOk result (IsPlan held.now arrival call.now cred.now now) }
{
    planned(alloc, call, cred, held, &mut Looks::new(alloc))
}

// The same, noting what is looked at.
fn planned(
    alloc: Global,
    call: &Call,
    cred: &Cred,
    held: &Held,
    looks: &mut Looks,
) -> Result<Plan, NoMemory>
    requires work { IsWorkSet held.now }
    requires call { IsReading call.now }
    requires none_yet { looks.old ≡ [] }
    ensures { (arrival : ℕ) → IfOk result (IsReadPlan held.now arrival call.now cred.now) }
{
    match reading(alloc, held, looks, call, cred) {
        Ok(reading) => final_of(alloc, held, looks, reading),
        Err(stop) => stopped(alloc, held, looks, stop),
    }
}

// The plan of a call that wants a part or is refused.
fn stopped(alloc: Global, held: &Held, looks: &Looks, stop: Stop) -> Result<Plan, NoMemory>
    requires { IsWorkSet held.now }
    ensures { IfOk result (IsStopped held.now looks.now stop) }
{
    match stop {
        Stop::Need(want) => Ok(Plan::Need(want)),
        Stop::Refused(status) => {
            let refusal = ready(alloc, Answer::Fault(status.0));
            final_of(alloc, held, looks, refusal)
        }
        Stop::NoMemory => Err(NoMemory),
    }
}

// The final that compares what was looked at, and reads.
fn final_of(alloc: Global, held: &Held, looks: &Looks, reading: Reading) -> Result<Plan, NoMemory>
    requires { IsWorkSet held.now }
    ensures { IfOk result (IsFinalOf held.now looks.now reading) }
{
    let mini = finished(alloc, held, looks, reading.items)?;
    Ok(Plan::Final {
        mini,
        answer: reading.form,
        made: None,
        changed: Numbers::new(alloc),
    })
}
