ghost use Rattle.std.specs.Prelude.{◌≡◌, ◌==◌, ℕ, not, filter, map};
ghost use Rattle.tx_coord.specs.Rules.{is_through as is_over, noted};
ghost use Rattle.tx_coord.specs.declared.finishing.Finishing.{Finishing as Decided};

use crate::decisions::is_through;
use crate::finishing::Finishing;
use mini_tx::{Numbers, TxId};
use sfs_base::Seq;
use std::alloc::Global;
use std::mem;

/// These without one.
fn without(waits: Numbers, from: u32) -> Numbers
    ensures { result ≡ filter (λ (n : ℕ). not (n == from)) waits }
{
    let mut numbers = waits.into_vec();
    numbers.retain(|number| *number != from);
    Seq::from(numbers)
}

/// Notes that a memory node is through with an identifier, where this is it.
fn note(alloc: Global, decided: &mut Finishing, from: u32, id: TxId)
    ensures { decided.new ≡ noted from id decided.old }
{
    if decided.id.is_same(id) {
        let waits = mem::replace(&mut decided.waits, Seq::new(alloc));
        decided.waits = without(waits, from);
    }
}

/// Notes it wherever it is.
pub(crate) fn note_all(alloc: Global, finishing: &mut Vec<Finishing>, from: u32, id: TxId)
    ensures { finishing.new.items ≡ map (noted from id) finishing.old.items }
{
    for decided in finishing.iter_mut() {
        note(alloc, decided, from, id);
    }
}

/// Lets go what all participants are through with.
pub(crate) fn drop_through(finishing: &mut Vec<Finishing>)
    ensures { finishing.new.items ≡ filter (λ (f : Decided). not (is_over f)) finishing.old.items }
{
    finishing.retain(|decided| !is_through(decided));
}
