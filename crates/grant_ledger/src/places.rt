ghost use Rattle.std.specs.Prelude.{◌≡◌, ◌≤◌, Some, None, length, IfSome, IfNone, OnOk, OnErr, if◌then◌else◌};
ghost use Rattle.mini_tx.specs.Order.{is_same};
ghost use Rattle.mini_tx.specs.declared.tx_id.TxId.{TxId as Identifier};
ghost use Rattle.grant_ledger.specs.Doubts.{AreAscending, IsAt, IsPlaceOf, after_grant, is_last, without, waits_of};

use crate::doubt::Doubt;
use mini_tx::TxId;
use sfs_base::NoMemory;

/// How many entries come before an identifier.
pub(crate) fn place_of(doubts: &[Doubt], id: TxId) -> usize
    requires { AreAscending doubts.now }
    ensures place { IsPlaceOf doubts.now id result }
    ensures bound { result ≤ length doubts.now }
{
    doubts.partition_point(|doubt| doubt.id.precedes(id))
}

/// The place of the entry of an identifier, if there is one.
pub(crate) fn find(doubts: &[Doubt], id: TxId) -> Option<usize>
    requires { AreAscending doubts.now }
    ensures some { IfSome result (IsAt doubts.now id) }
    ensures none { IfNone result (waits_of doubts.now id ≡ None) }
{
    let at = place_of(doubts, id);
    if at == doubts.len() {
        return None;
    }
    if doubts[at].id.is_same(id) {
        Some(at)
    } else {
        None
    }
}

/// Puts the entry of an identifier that has none in its place.
pub(crate) fn put(doubts: &mut Vec<Doubt>, doubt: Doubt) -> Result<(), NoMemory>
    requires ascending { AreAscending doubts.old.items }
    requires unknown { waits_of doubts.old.items doubt.id ≡ None }
    ensures ascending { AreAscending doubts.new.items }
    ensures entered { OnOk result ((other : Identifier) → waits_of doubts.new.items other
        ≡ (if is_same doubt.id other then Some doubt.waits.items else waits_of doubts.old.items other)) }
    ensures kept { OnErr result (doubts.new.items ≡ doubts.old.items) }
{
    let at = place_of(doubts, doubt.id);
    doubts.insert(at, doubt)?;
    Ok(())
}

/// Takes the entry of an identifier away.
pub(crate) fn take(doubts: &mut Vec<Doubt>, id: TxId, at: usize)
    requires ascending { AreAscending doubts.old.items }
    requires there { IsAt doubts.old.items id at }
    ensures ascending { AreAscending doubts.new.items }
    ensures others { (other : Identifier) → waits_of doubts.new.items other
        ≡ (if is_same id other then None else waits_of doubts.old.items other) }
{
    doubts.remove(at);
}

/// Takes a participant out of the entry of an identifier, and tells whether none is left; the entry is then
/// taken away.
pub(crate) fn grant(doubts: &mut Vec<Doubt>, id: TxId, at: usize, memory: u32) -> bool
    requires ascending { AreAscending doubts.old.items }
    requires there { IsAt doubts.old.items id at }
    ensures ascending { AreAscending doubts.new.items }
    ensures last { result ≡ is_last (waits_of doubts.old.items id) memory }
    ensures granted { (other : Identifier) → waits_of doubts.new.items other
        ≡ (if is_same id other then after_grant (waits_of doubts.old.items id) memory else waits_of doubts.old.items other) }
{
    let doubt = &mut doubts[at];
    take_out(&mut doubt.waits, memory);
    let is_last = doubt.waits.is_empty();
    if is_last {
        doubts.remove(at);
    }
    is_last
}

/// Takes a participant out.
fn take_out(waits: &mut Vec<u32>, memory: u32)
    ensures { waits.new.items ≡ without memory waits.old.items }
{
    waits.retain(|other| *other != memory);
}
