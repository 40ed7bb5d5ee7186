ghost use Rattle.std.specs.Prelude.{IsTrue};
ghost use Rattle.plan_read.specs.Readings.{IsReading};
ghost use Rattle.reading_planner.specs.Reads.{IsReadersPlan};

use crate::planning::plan_reading;
use nfs_proto::{Call, Stamp};
use node_cache::{Held, NoMemory};
use node_rules::Planner;
use plan_forms::Plan;
use rpc_msg::Cred;
use std::alloc::Global;

/// The planner of a node that is asked to read alone. It has no plan of another call: such a call ends the node that tries
/// it, as want of memory does.
pub enum ReadingPlanner {}

impl Planner for ReadingPlanner {
    ghost plans = { IsReadersPlan };

    fn plan(
        alloc: Global,
        call: &Call,
        cred: &Cred,
        now: Stamp,
        arrival: u32,
        held: &Held,
    ) -> Result<Plan, NoMemory> {
        if reads(call) {
            plan_reading(alloc, call, cred, now, arrival, held)
        } else {
            Err(NoMemory)
        }
    }
}

// Whether a call is one of the procedures that read.
fn reads(call: &Call) -> bool
    ensures only { IsTrue result → IsReading call.now }
    ensures all { IsReading call.now → IsTrue result }
{
    match call {
        Call::GetAttr { .. } => true,
        Call::Lookup { .. } => true,
        Call::ReadLink { .. } => true,
        Call::Read { .. } => true,
        Call::ReadDir { .. } => true,
        Call::StatFs { .. } => true,
        _ => false,
    }
}
