//! What an outcome makes of the arrival that runs.
ghost use Rattle.std.specs.Prelude.{◌≡◌, ◌<◌, ◌≤◌, false, length, map, IfOk, OnOk};
ghost use Rattle.mini_tx.specs.EntryGrammar.{is_granted};
ghost use Rattle.node_parts.specs.Votes.{IsPlaced};
ghost use Rattle.node_rules.specs.End.{Comes, cache_after, cached_after};
ghost use Rattle.node_rules.specs.Order.{IsRunningInOrder};
ghost use Rattle.node_rules.specs.Plans.{IsAnswerable};
ghost use Rattle.plan_rules.specs.Fetched.{AreReads, fetched};
ghost use Rattle.plan_rules.specs.Works.{IsTold, IsWorkSet};
ghost use Rattle.nfs_node.specs.Progress.{IsHeld, IsOutcomeOf, IsRefused, is_answered, progress_of};

use crate::next::Next;
use mini_tx::{Numbers, Reads, Vote};
use nfs_service::reply_to;
use node_cache::{Cache, NoMemory, Want};
use node_parts::{cause_of, failed, put_back};
use node_rules::{Attempt, Output, Pending, Running, Why, Work};
use plan_keep::{KeepFault, keep};
use std::alloc::Global;
use tx_coord::Outcome;

/// How many minitransactions of an arrival fail before it is not tried any more.
const MAX_FAILURES: u32 = 8;

/// What the outcome of the minitransaction that runs makes of its arrival.
pub(crate) fn ended(
    alloc: Global,
    running: Running,
    outcome: &Outcome,
    cache: &mut Cache,
) -> Result<Next, NoMemory>
    requires order { IsRunningInOrder running.work.held.geometry cache.old running }
    requires fits { IsOutcomeOf running outcome.now }
    ensures { IfOk result (λ next. Comes running cache.old outcome.now (progress_of next cache.new)) }
{
    let Running {
        work,
        attempt,
        places,
        ..
    } = running;
    match outcome {
        Outcome::Committed(reads) => match attempt {
            Attempt::Fetch(want) => hold(alloc, work, want, reads),
            Attempt::Final(pending) => answer(alloc, work, pending, reads, cache),
        },
        Outcome::Refused { memory, vote } => { refuse(alloc, work, &places, *memory, vote, cache) }
    }
}

// What was read is held, or is unfit.
fn hold(alloc: Global, work: Work, want: Want, reads: &Reads) -> Result<Next, NoMemory>
    requires work { IsWorkSet work.held }
    requires told { IsTold work.held want }
    requires reads { AreReads (fetched work.held want) reads.now }
    ensures { IfOk result (IsHeld work want reads.now) }
{
    let mut work = work;
    match keep(alloc, &want, reads, &mut work.held) {
        Ok(()) => Ok(Next::GoesOn(work)),
        Err(KeepFault::Damaged { memory, at }) => Ok(Next::Ends(Output::Dropped {
            id: work.arrival.id,
            why: Why::Damaged { memory, at },
        })),
        Err(KeepFault::NoMemory) => Err(NoMemory),
    }
}

// What was read is answered, and what the work set holds goes to the cache.
fn answer(
    alloc: Global,
    work: Work,
    pending: Pending,
    reads: &Reads,
    cache: &mut Cache,
) -> Result<Next, NoMemory>
    requires takes { IsAnswerable (map length reads.now) pending.answer }
    requires places { length work.held.maps ≤ 8 }
    ensures answered { IfOk result (λ next. next ≡ is_answered work pending reads.now) }
    ensures cache { OnOk result (cache.new ≡ cached_after pending work.held cache.old) }
{
    let Work { arrival, held, .. } = work;
    let Pending {
        answer,
        changed,
        written,
    } = pending;
    let answer = answer.finish(alloc, reads)?;
    let bytes = reply_to(alloc, arrival.xid, &answer)?;
    put_back(changed.as_slice(), written.as_slice(), held, cache)?;
    Ok(Next::Ends(Output::Reply {
        id: arrival.id,
        bytes,
    }))
}

// It is tried again, or it failed too often.
fn refuse(
    alloc: Global,
    work: Work,
    places: &Numbers,
    memory: u32,
    vote: &Vote,
    cache: &mut Cache,
) -> Result<Next, NoMemory>
    requires few { work.failures < 8 }
    requires refused { is_granted vote.now ≡ false }
    requires placed { IsPlaced vote.now places.now }
    ensures refused { IfOk result (IsRefused work places.now memory vote.now) }
    ensures cache { cache.new ≡ cache_after vote.now cache.old }
{
    let work = failed(alloc, vote, work, cache)?;
    if work.failures < MAX_FAILURES {
        Ok(Next::GoesOn(work))
    } else {
        Ok(Next::Ends(Output::Retry {
            id: work.arrival.id,
            cause: cause_of(memory, vote, places.as_slice()),
        }))
    }
}
