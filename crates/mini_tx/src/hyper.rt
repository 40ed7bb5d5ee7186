ghost use Rattle.std.specs.Prelude.{◌≡◌, ◌<◌, ◌^◌, ◌++◌, length, IfOk, OnOk};
ghost use Rattle.std.specs.Int.{w64, to_be_bytes};
ghost use Rattle.std.proofs.Common.{refl};
ghost use Rattle.mini_tx.specs.EntryGrammar.{hyper, IsHyper};
ghost use Rattle.mini_tx.specs.EntryReading.{hyper_item};
ghost use Rattle.mini_tx.specs.EntryLemmas.{hyper_exact};

use sfs_base::NoMemory;
use sfs_xdr::{Codec, ItemFault, Reader, Writer};
use std::alloc::Global;

/// How many bytes such a number takes.
const HYPER_BYTES: usize = 8;

/// A number of eight bytes, the highest first (RFC 1014, section 3.3).
pub struct Hyper;

impl Codec for Hyper {
    type Value = u64;

    ghost read_of = { hyper_item };

    ghost spells = { IsHyper };

    ghost typed = { λ n. n < 2 ^ 64 };

    ghost fits = { λ n. Unit {0} };

    ghost spelling = { hyper };

    #[tactic(auto, unfolding(sfs_xdr::specs::Codec::plainly, sfs_xdr::specs::Reading::number_of, sfs_xdr::specs::Reading::opaque_of))]
    fn read(_alloc: Global, reader: &mut Reader) -> Result<u64, ItemFault> {
        match reader.opaque(HYPER_BYTES) {
            Ok(bytes) => Ok(u64::from_be_bytes([
                bytes[0], bytes[1], bytes[2], bytes[3], bytes[4], bytes[5], bytes[6], bytes[7],
            ])),
            Err(_) => Err(ItemFault::Malformed),
        }
    }

    #[tactic(auto, unfolding(crate::specs::EntryGrammar::hyper))]
    fn write(value: &u64, writer: &mut Writer) -> Result<(), NoMemory> {
        writer.opaque(&value.to_be_bytes())
    }

    ghost exact = { hyper_exact };

    ghost written = { λ n typed fits. (typed, refl) };
}
