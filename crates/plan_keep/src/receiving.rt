ghost use Rattle.std.specs.Prelude.{◌≡◌, ℕ, Err, OnOk, OnErr};
ghost use Rattle.plan_rules.specs.Fetched.{AreReads, IsKept, IsUnfitAt, fetched};
ghost use Rattle.plan_rules.specs.Works.{IsTold, IsWorkSet};
ghost use Rattle.plan_keep.specs.declared.keep_fault.KeepFault.TheVariants.{Damaged};

use crate::groups::keep_group;
use crate::keep_fault::KeepFault;
use crate::links::keep_chain;
use crate::records::{keep_maps, keep_record};
use mini_tx::Reads;
use node_cache::{Held, Want};
use std::alloc::Global;

/// Adds to a work set the part that was read, and nothing else. The reads are those of the minitransaction that fetches
/// the part. On a refusal the work set is as before.
///
/// # Errors
///
/// [`KeepFault::Damaged`] exactly where what was read is unfit, with the address of the first record or block that is
/// (`docs/FORMATS.md`, "What a call wants"); [`KeepFault::NoMemory`].
pub fn keep(alloc: Global, want: &Want, reads: &Reads, held: &mut Held) -> Result<(), KeepFault>
    requires work { IsWorkSet held.old }
    requires told { IsTold held.old want.now }
    requires reads { AreReads (fetched held.old want.now) reads.now }
    ensures ok { OnOk result (IsKept held.old want.now reads.now held.new) }
    ensures err { OnErr result (held.new ≡ held.old) }
    ensures damaged { (m at : ℕ) → result ≡ Err (Damaged m at) → IsUnfitAt held.old want.now reads.now m at }
{
    let reads = reads.as_slice();
    match *want {
        Want::Inode(number) => keep_record(alloc, held, number, reads),
        Want::Chain(number, index) => keep_chain(alloc, held, number, index, reads),
        Want::Slots(number, group) => keep_group(alloc, held, number, group, reads),
        Want::Map(memory) => Ok(keep_maps(alloc, held, memory, reads)?),
    }
}
