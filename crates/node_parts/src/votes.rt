//! What a vote that is not Granted leaves, and what it tells.
ghost use Rattle.std.specs.Prelude.{◌≡◌, ◌<◌, false, IfOk};
ghost use Rattle.mini_tx.specs.EntryGrammar.{is_granted};
ghost use Rattle.node_rules.specs.End.{cache_after, cause_of, is_mismatch, work_after};
ghost use Rattle.node_parts.specs.Votes.{IsPlaced};

use mini_tx::Vote;
use node_cache::{Cache, Held, NoMemory};
use node_rules::{Cause, Work};
use std::alloc::Global;

/// An arrival after a minitransaction of it failed by this vote: at a mismatch its work set and the cache are emptied.
pub fn failed(alloc: Global, vote: &Vote, work: Work, cache: &mut Cache) -> Result<Work, NoMemory>
    requires { work.failures < 8 }
    ensures work { IfOk result (λ after. after ≡ work_after vote.now work) }
    ensures cache { cache.new ≡ cache_after vote.now cache.old }
{
    let mut work = work;
    work.failures += 1;
    if is_mismatch(vote) {
        cache.clear();
        work.held = Held::new(alloc, work.held.geometry)?;
    }
    Ok(work)
}

/// Whether a vote tells of a compare item that differs.
pub fn is_mismatch(vote: &Vote) -> bool
    ensures { result ≡ is_mismatch vote.now }
{
    matches!(vote, Vote::Mismatch { .. })
}

/// What a vote of a memory node tells that is not Granted, on a minitransaction whose items have these addresses.
pub fn cause_of(memory: u32, vote: &Vote, places: &[u32]) -> Cause
    requires refused { is_granted vote.now ≡ false }
    requires placed { IsPlaced vote.now places.now }
    ensures { result ≡ cause_of memory vote.now places.now }
{
    match vote {
        Vote::Granted(_) => unreachable!(),
        Vote::Mismatch { item, .. } => Cause::Mismatch {
            memory,
            at: places[*item as usize],
        },
        Vote::Locked { holder } => Cause::Locked {
            memory,
            holder: *holder,
        },
        Vote::Forced { .. } => Cause::Forced { memory },
        Vote::Held { cut } => Cause::Held { memory, cut: *cut },
    }
}
