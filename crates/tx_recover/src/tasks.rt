//! What is done with all identifiers at work.
ghost use Rattle.std.specs.Prelude.{◌≡◌, not, map, filter, IfOk, OnOk};
ghost use Rattle.std.specs.List.{flat_map};
ghost use Rattle.tx_recover.specs.Rules.{again, answered, forgets, is_at_work, is_through as is_over, noted, place_in, placed_in, takes_up};
ghost use Rattle.tx_recover.specs.declared.work.Work.{Work as Task};

use crate::work::{MAX_AT_WORK, Work};
use mini_tx::{NoMemory, TxId};
use sfs_base::Seq;
use std::alloc::Global;
use tx_coord::Outbox;

/// Whether an identifier is at work.
fn is_at_work(works: &[Work], id: TxId) -> bool
    ensures { result ≡ is_at_work id works.now }
{
    works.iter().any(|work| work.id.is_same(id))
}

/// Whether an identifier is taken up where it is named.
pub(crate) fn takes_up(works: &[Work], id: TxId) -> bool
    ensures { result ≡ takes_up works.now id }
{
    !is_at_work(works, id) && works.len() < MAX_AT_WORK
}

/// How many of the first come before an identifier.
fn place_in(works: &[Work], id: TxId) -> usize
    ensures { result ≡ place_in id works.now }
{
    let mut before = 0;
    for work in works {
        if !work.id.precedes(id) {
            return before;
        }
        before += 1;
    }
    before
}

/// Puts one in its place.
pub(crate) fn place(works: &mut Vec<Work>, work: Work) -> Result<(), NoMemory>
    ensures { OnOk result (works.new.items ≡ placed_in «work» works.old.items) }
{
    let at = place_in(works, work.id);
    works.insert(at, work)?;
    Ok(())
}

/// Hears whether a memory node voted for an identifier.
pub(crate) fn answer_all(
    alloc: Global,
    works: &mut Vec<Work>,
    from: u32,
    id: TxId,
    ok: bool,
) -> Result<Outbox, NoMemory>
    ensures now { OnOk result (works.new.items ≡ map (λ (w : Task). (answered from id ok w).now) works.old.items) }
    ensures posts { IfOk result (λ posts. posts ≡ flat_map (λ (w : Task). (answered from id ok w).posts) works.old.items) }
{
    let mut posts = Seq::new(alloc);
    for work in works.iter_mut() {
        posts.append(work.answer(alloc, from, id, ok)?)?;
    }
    Ok(posts)
}

/// Hears that a memory node is through with an identifier.
pub(crate) fn note_all(alloc: Global, works: &mut Vec<Work>, from: u32, id: TxId)
    ensures { works.new.items ≡ map (noted from id) works.old.items }
{
    for work in works.iter_mut() {
        work.note(alloc, from, id);
    }
}

/// `forget` of what all participants are through with.
pub(crate) fn forgets(alloc: Global, works: &[Work]) -> Result<Outbox, NoMemory>
    ensures { IfOk result (λ posts. posts ≡ flat_map forgets (filter is_over works.now)) }
{
    let mut posts = Seq::new(alloc);
    for work in works {
        if work.is_through() {
            posts.append(work.forget(alloc)?)?;
        }
    }
    Ok(posts)
}

/// Lets go what all participants are through with.
pub(crate) fn drop_through(works: &mut Vec<Work>)
    ensures { works.new.items ≡ filter (λ (w : Task). not (is_over w)) works.old.items }
{
    works.retain(|work| !work.is_through());
}

/// What is posted again.
pub(crate) fn again_all(alloc: Global, works: &[Work]) -> Result<Outbox, NoMemory>
    ensures { IfOk result (λ posts. posts ≡ flat_map again works.now) }
{
    let mut posts = Seq::new(alloc);
    for work in works {
        posts.append(work.again(alloc)?)?;
    }
    Ok(posts)
}
