ghost use Rattle.std.specs.Prelude.{◌≡◌, ◌+◌, ◌*◌, ◌<◌, ◌≤◌, ℕ, [], ◌∷◌, length, Some, Err, IsSome, IfSome, IfNone, IfOk, OnOk, OnErr};
ghost use Rattle.fs_image.specs.Owners.{Block, Chain};
ghost use Rattle.fs_image.specs.Stands.{IsBlock};
ghost use Rattle.fs_image.specs.Places.{layout_of};
ghost use Rattle.fs_layout.specs.Places.{block_place as place_in};
ghost use Rattle.node_cache.specs.declared.want.Want.TheVariants as want;
ghost use Rattle.node_cache.specs.Cached.{held_of};
ghost use Rattle.plan_rules.specs.Fetched.{AreMapsKept, AreReads, IsChainKept, IsGroupKept, IsKept, IsRecordKept, IsUnfitAt, fetched};
ghost use Rattle.plan_rules.specs.Told.{place_of};
ghost use Rattle.plan_rules.specs.Works.{IsTold, IsWorkSet};
ghost use Rattle.plan_keep.specs.declared.keep_fault.KeepFault.TheVariants.{Damaged};

use crate::keep_fault::KeepFault;
use node_cache::{Bytes, Held, NoMemory};
use plan_parts::{memory_of, put_maps, put_record, read_record, record_place};
use std::alloc::Global;

/// Holds the record that was read, where it is fit. On a refusal all is as before.
pub(crate) fn keep_record(
    alloc: Global,
    held: &mut Held,
    number: u32,
    reads: &[Bytes],
) -> Result<(), KeepFault>
    requires { length reads.now ≡ 1 }
    ensures ok { OnOk result (IsRecordKept held.old number reads.now held.new) }
    ensures err { OnErr result (held.new ≡ held.old) }
    ensures damaged { (m at : ℕ) → result ≡ Err (Damaged m at) → IsUnfitAt held.old (want.Inode number) reads.now m at }
{
    match read_record(&held.geometry, only(reads).as_slice()) {
        Some(attrs) => Ok(put_record(alloc, held, number, attrs)?),
        None => Err(KeepFault::Damaged {
            memory: memory_of(number),
            at: record_place(number),
        }),
    }
}

/// Holds the maps that were read of a memory node. On a refusal all is as before.
pub(crate) fn keep_maps(
    alloc: Global,
    held: &mut Held,
    memory: u32,
    reads: &[Bytes],
) -> Result<(), NoMemory>
    requires one { length reads.now ≡ 1 }
    requires there { memory < length held.old.maps }
    ensures ok { OnOk result (AreMapsKept held.old memory reads.now held.new) }
    ensures err { OnErr result (held.new ≡ held.old) }
{
    let page = Bytes::from_slice(alloc, only(reads).as_slice())?;
    put_maps(held, memory, page);
    Ok(())
}

// The only one that was read.
pub(crate) fn only(reads: &[Bytes]) -> &Bytes
    requires { length reads.now ≡ 1 }
    ensures { reads.now ≡ result.now ∷ [] }
{
    &reads[0]
}
