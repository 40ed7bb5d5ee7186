ghost use Rattle.std.specs.Prelude.{◌≡◌, ◌≤◌, ◌<◌, ◌==◌, ◌++◌, length, replicate, IsTrue, ◌↔◌, Ok, Err, IfOk, OnOk};
ghost use Rattle.std.proofs.Common.{rules, refl};
ghost use Rattle.sfs_xdr.specs.Items.{opaque_var};
ghost use Rattle.sfs_xdr.specs.Items as items;
ghost use Rattle.sfs_xdr.specs.declared.item_fault.ItemFault.TheVariants.{Malformed as malformed};
ghost use Rattle.mini_tx.specs.EntryGrammar.{IsFilled};
ghost use Rattle.mini_tx.specs.EntryReading.{are_zeros, is_filled, body_of, filled_of};
ghost use Rattle.mini_tx.specs.EntryLemmas.{filled_exact};

use sfs_base::{Bytes, NoMemory};
use sfs_xdr::{Codec, ItemFault, Reader, UNIT, Writer};
use std::alloc::Global;

/// At most `MAX` bytes behind their length (RFC 1014, section 3.10), filled up with zeros and nothing
/// else. They are copied.
pub struct Filled<const MAX: u32>;

impl<const MAX: u32> Codec for Filled<MAX> {
    type Value = Bytes;

    ghost read_of = { filled_of MAX };

    ghost spells = { IsFilled MAX };

    ghost typed = { λ bytes. Unit {0} };

    ghost fits = { λ bytes. length bytes ≤ MAX };

    ghost spelling = { opaque_var };

    #[tactic(auto, unfolding(crate::specs::EntryReading::filled_of))]
    fn read(alloc: Global, reader: &mut Reader) -> Result<Bytes, ItemFault> {
        let length = u32::read(alloc, reader)?;
        if length > MAX {
            return Err(ItemFault::Malformed);
        }
        read_body(alloc, reader, length as usize)
    }

    fn write(value: &Bytes, writer: &mut Writer) -> Result<(), NoMemory> {
        writer.opaque_var(value.as_slice())
    }

    ghost exact = { filled_exact MAX (Prim.search rules) };

    ghost written = { λ bytes typed fits. (fits, refl) };
}

// Reads so many bytes that are filled up with zeros.
#[tactic(auto, unfolding(crate::specs::EntryReading::body_of, sfs_xdr::specs::Codec::plainly))]
fn read_body(alloc: Global, reader: &mut Reader, length: usize) -> Result<Bytes, ItemFault>
    ensures found { IfOk result (λ bytes. body_of length reader.old ≡ Ok (bytes, reader.new)) }
    ensures malformed { result ≡ Err malformed → body_of length reader.old ≡ Err tt }
{
    if !is_filled_up(reader.rest(), length) {
        return Err(ItemFault::Malformed);
    }
    match reader.opaque(length) {
        Ok(bytes) => Ok(Bytes::from_slice(alloc, bytes)?),
        Err(_) => Err(ItemFault::Malformed),
    }
}

// Whether zeros stand behind the first `length` bytes that fill them up.
#[tactic(auto, unfolding(crate::specs::EntryReading::is_filled))]
fn is_filled_up(bytes: &[u8], length: usize) -> bool
    ensures { result ≡ is_filled length bytes.now }
{
    let padding = padding_of(length);
    if bytes.len() < length || bytes.len() - length < padding {
        return false;
    }
    are_all_zero(&bytes[length..length + padding])
}

// Whether every byte is zero.
fn are_all_zero(bytes: &[u8]) -> bool
    ensures { result ≡ are_zeros bytes.now }
{
    is_zero_throughout(bytes)
}

// The same, told by the bytes.
fn is_zero_throughout(bytes: &[u8]) -> bool
    ensures { IsTrue result ↔ (bytes.now ≡ replicate (length bytes.now) 0) }
{
    bytes.iter().all(|byte| *byte == 0)
}

// How many bytes fill `n` bytes up to a multiple of four.
fn padding_of(n: usize) -> usize
    ensures { result ≡ items.padding_of n }
{
    (UNIT - n % UNIT) % UNIT
}
