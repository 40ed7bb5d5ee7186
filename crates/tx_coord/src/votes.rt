ghost use Rattle.std.specs.Prelude.{◌≡◌, ◌==◌, length, IfOk};
ghost use Rattle.tx_coord.specs.Rules.{counted as counted_of, counts as counts_of, granted as granted_of, missing, with_grant as with_counted, is_in};

use crate::fit::fits;
use crate::gathered::gathered;
use crate::grant::Grant;
use crate::outcome::Outcome;
use crate::participants::{has_granted, is_among, participants};
use crate::progress::{Ending, Progress};
use crate::running::Running;
use mini_tx::{NoMemory, Reads, TxId, Vote};
use std::alloc::Global;

/// Whether a vote is the first of a participant on what runs, and fits.
pub(crate) fn counts(running: &Running, from: u32, id: TxId, vote: &Vote) -> bool
    ensures { result ≡ counts_of running.now from id vote.now }
{
    running.id.is_same(id)
        && is_missing(running, from)
        && fits(running.mini.items().as_slice(), from, vote)
}

/// Whether the vote of a participant is missing.
fn is_missing(running: &Running, from: u32) -> bool
    ensures { result ≡ is_in from (missing running.now) }
{
    is_among(from, participants(&running.mini)) && !has_granted(running.grants.as_slice(), from)
}

/// What a vote that counts makes of what runs.
pub(crate) fn counted(
    alloc: Global,
    running: Running,
    from: u32,
    vote: &Vote,
) -> Result<Progress, NoMemory>
    ensures { IfOk result (λ progress. progress ≡ counted_of running from vote.now) }
{
    match vote {
        Vote::Granted(reads) => granted(alloc, with_grant(running, from, reads)?),
        Vote::Mismatch { .. } | Vote::Locked { .. } | Vote::Forced { .. } | Vote::Held { .. } => {
            let vote = copied(vote)?;
            Ok(Progress::Ends(Ending {
                id: running.id,
                mini: running.mini,
                commit: false,
                outcome: Outcome::Refused { memory: from, vote },
            }))
        }
    }
}

/// What runs, with one more vote that was counted: its reads are copied here, and nowhere else.
fn with_grant(running: Running, from: u32, reads: &Reads) -> Result<Running, NoMemory>
    ensures { IfOk result (λ now. now ≡ with_counted running from reads.now) }
{
    let mut grants = running.grants;
    grants.push(Grant {
        memory: from,
        reads: copied_reads(reads)?.into_vec().into_iter(),
    })?;
    Ok(Running {
        id: running.id,
        mini: running.mini,
        grants,
    })
}

/// What runs, or with no vote missing that it is committed.
fn granted(alloc: Global, running: Running) -> Result<Progress, NoMemory>
    ensures { IfOk result (λ progress. progress ≡ granted_of running) }
{
    if !is_complete(&running) {
        return Ok(Progress::Waits(running));
    }
    let reads = gathered(alloc, running.grants, running.mini.items().as_slice())?;
    Ok(Progress::Ends(Ending {
        id: running.id,
        mini: running.mini,
        commit: true,
        outcome: Outcome::Committed(reads),
    }))
}

/// Whether no vote is missing.
fn is_complete(running: &Running) -> bool
    ensures { result ≡ (length (missing running.now) == 0) }
{
    for memory in participants(&running.mini) {
        if !has_granted(running.grants.as_slice(), *memory) {
            return false;
        }
    }
    true
}

/// A copy of a vote.
fn copied(vote: &Vote) -> Result<Vote, NoMemory>
    ensures { IfOk result (λ copy. copy ≡ vote.now) }
{
    Ok(vote.clone()?)
}

/// A copy of reads.
fn copied_reads(reads: &Reads) -> Result<Reads, NoMemory>
    ensures { IfOk result (λ copy. copy ≡ reads.now) }
{
    Ok(reads.clone()?)
}
