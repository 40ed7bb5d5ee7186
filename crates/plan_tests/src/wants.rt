ghost use Rattle.plan_read.specs.Readings.{IsReading};
ghost use Rattle.plan_rules.specs.Works.{IsWorkSet};

use crate::serving::{Step, nothing_held, serve};
use fs_rules::Cred;
use mini_tx::Bytes;
use nfs_proto::Call;
use node_cache::{Held, NoMemory, Want};
use sfs_base::Seq;
use std::alloc::Global;

/// Parts, in the order in which they are wanted.
pub type Wants = Seq<Want>;

/// The parts that a call wants one after the other over a flat memory, from nothing held up to its final or to one that is
/// unfit.
pub fn wants_of(
    alloc: Global,
    call: &Call,
    cred: &Cred,
    flat: &mut [Bytes],
) -> Result<Wants, NoMemory>
    requires { IsReading call.now }
{
    let mut held = nothing_held(alloc)?;
    let mut wants = Wants::new(alloc);
    gather(alloc, call, cred, &mut held, flat, &mut wants, 8)?;
    Ok(wants)
}

// Those of so many steps.
fn gather(
    alloc: Global,
    call: &Call,
    cred: &Cred,
    held: &mut Held,
    flat: &mut [Bytes],
    wants: &mut Wants,
    steps: u32,
) -> Result<(), NoMemory>
    requires work { IsWorkSet held.old }
    requires call { IsReading call.now }
    ensures { IsWorkSet held.new }
{
    if steps == 0 {
        return Ok(());
    }
    match serve(alloc, call, cred, held, flat)? {
        Step::Held(want) => {
            wants.push(want)?;
            gather(alloc, call, cred, held, flat, wants, steps - 1)
        }
        _ => Ok(()),
    }
}
