ghost use Rattle.std.specs.Prelude.{◌≡◌, ◌+◌, ◌*◌, ◌<◌, ◌≤◌, ℕ, [], ◌∷◌, length, Some, Err, IsSome, IfSome, IfNone, IfOk, OnOk, OnErr};
ghost use Rattle.fs_image.specs.Owners.{Block, Chain};
ghost use Rattle.fs_image.specs.Stands.{IsBlock};
ghost use Rattle.fs_rules.specs.Geometry.{IsWithinLimits};
ghost use Rattle.node_cache.specs.declared.want.Want.TheVariants as want;
ghost use Rattle.plan_rules.specs.Fetched.{IsChainKept, IsFitChainRead, IsUnfitAt};
ghost use Rattle.plan_rules.specs.Told.{place_of};
ghost use Rattle.plan_rules.specs.Works.{IsTold, IsWorkSet};
ghost use Rattle.plan_keep.specs.declared.keep_fault.KeepFault.TheVariants.{Damaged};
ghost use Rattle.plan_keep.specs.Links.{IsLinkRead, LiesThere};

use crate::keep_fault::KeepFault;
use crate::records::only;
use fs_chain::ChainBlock;
use fs_layout::Reference;
use fs_rules::Geometry;
use node_cache::{Bytes, Held, HeldChain};
use plan_parts::{chain_place, entry_of, layout_of, push_chain, read_link};
use std::alloc::Global;

/// Holds the chaining block that was read, where it is fit. On a refusal all is as before.
pub(crate) fn keep_chain(
    alloc: Global,
    held: &mut Held,
    number: u32,
    index: u32,
    reads: &[Bytes],
) -> Result<(), KeepFault>
    requires work { IsWorkSet held.old }
    requires told { IsTold held.old (want.Chain number index) }
    requires one { length reads.now ≡ 1 }
    ensures ok { OnOk result (IsChainKept held.old number index reads.now held.new) }
    ensures err { OnErr result (held.new ≡ held.old) }
    ensures damaged { (m at : ℕ) → result ≡ Err (Damaged m at) → IsUnfitAt held.old (want.Chain number index) reads.now m at }
{
    match link_in(held, number, index, only(reads).as_slice()) {
        Some(chain) => Ok(push_chain(alloc, held, number, HeldChain { index, chain })?),
        None => Err(chain_fault(held, number, index)),
    }
}

// The chaining block that was read, where it is fit.
fn link_in(held: &Held, number: u32, index: u32, bytes: &[u8]) -> Option<ChainBlock>
    requires { index < 8 }
    ensures found { IfSome result (IsLinkRead held.now number index bytes.now) }
    ensures none { IfNone result (IsFitChainRead held.now number index bytes.now → ⊥) }
{
    match entry_of(held, number) {
        Some(entry) => read_link(&held.geometry, &entry.attrs, number, index, bytes),
        None => None,
    }
}

// Where the chaining block that was read lies.
fn chain_fault(held: &Held, number: u32, index: u32) -> KeepFault
    requires work { IsWorkSet held.now }
    requires told { IsTold held.now (want.Chain number index) }
    ensures { (m at : ℕ) → result ≡ Damaged m at → IfSome (place_of held.now number (Chain index)) (λ r. LiesThere held.now.geometry r m at) }
{
    fault_at(&held.geometry, chain_place(held, number, index).unwrap())
}

/// That a block is damaged.
pub(crate) fn fault_at(geometry: &Geometry, at: Reference) -> KeepFault
    requires limits { IsWithinLimits geometry.now }
    requires inside { IsBlock geometry.now at }
    ensures { (m a : ℕ) → result ≡ Damaged m a → LiesThere geometry.now at m a }
{
    KeepFault::Damaged {
        memory: at.memory,
        at: layout_of(geometry).block_at(at.block),
    }
}
