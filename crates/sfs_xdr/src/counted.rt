ghost use Rattle.std.specs.Prelude.{◌≡◌, ◌≤◌, ℕ, List, ◌++◌, drop, length, Ok, Err, IfOk, OnOk};
ghost use Rattle.std.specs.List.{flat_map, AllByRecursion};
ghost use Rattle.sfs_xdr.specs.Items.{word};
ghost use Rattle.sfs_xdr.specs.Codec.{many_of, counted_of, IsCounted};
ghost use Rattle.sfs_xdr.specs.CodecLemmas.{counted_exact, counted_written};
ghost use Rattle.sfs_xdr.specs.declared.item_fault.ItemFault.TheVariants.{Malformed as malformed};
ghost use Rattle.std.proofs.Common.{rules};

use crate::codec::Codec;
use crate::item_fault::ItemFault;
use crate::reader::Reader;
use crate::writer::Writer;
use sfs_base::{NoMemory, Seq};
use std::alloc::Global;
use std::marker::PhantomData;

/// At most `MAX` values behind their number (RFC 1014, section 3.12).
pub struct Counted<C, const MAX: u32>(PhantomData<C>);

impl<C: Codec, const MAX: u32> Codec for Counted<C, MAX>
where
    C::Value: Drop,
{
    type Value = Seq<C::Value>;

    ghost read_of = { counted_of MAX C.read_of };

    ghost spells = { IsCounted MAX C.spells };

    ghost typed = { λ values. AllByRecursion C.typed values };

    ghost fits = { λ values. (length values ≤ MAX) × AllByRecursion C.fits values };

    ghost spelling = { λ values. word (length values) ++ flat_map C.spelling values };

    #[tactic(auto, unfolding(crate::specs::Codec::counted_of))]
    fn read(alloc: Global, reader: &mut Reader) -> Result<Seq<C::Value>, ItemFault> {
        let count = u32::read(alloc, reader)?;
        if count > MAX {
            return Err(ItemFault::Malformed);
        }
        read_many::<C>(alloc, reader, count)
    }

    fn write(values: &Seq<C::Value>, writer: &mut Writer) -> Result<(), NoMemory> {
        writer.u32(values.len() as u32)?;
        write_many::<C>(values.as_slice(), writer)
    }

    ghost exact = { counted_exact MAX C.read_of C.spells C.exact };

    ghost written = { λ values typed fits. counted_written MAX (Prim.search rules) C.spells C.spelling C.typed C.fits C.written values typed fits.0 fits.1 };
}

/// Reads so many values one behind another. `Malformed` where the bytes that are left begin with fewer; after a refusal
/// the reader stands somewhere within them.
pub fn read_many<C: Codec>(
    alloc: Global,
    reader: &mut Reader,
    count: u32,
) -> Result<Seq<C::Value>, ItemFault>
where
    C::Value: Drop,
    ensures found { IfOk result (λ values. many_of C.read_of count reader.old ≡ Ok (values, reader.new)) }
    ensures malformed { result ≡ Err malformed → many_of C.read_of count reader.old ≡ Err tt }
{
    let mut values = Seq::new(alloc);
    for _ in 0..count {
        let value = C::read(alloc, reader)?;
        values.push(value)?;
    }
    Ok(values)
}

/// Writes values one behind another. On [`NoMemory`] a front of them, and a part of the next, may be written.
pub fn write_many<C: Codec>(values: &[C::Value], writer: &mut Writer) -> Result<(), NoMemory>
    requires { AllByRecursion C.fits values.now }
    ensures { OnOk result (writer.new ≡ writer.old ++ flat_map C.spelling values.now) }
{
    for value in values {
        C::write(value, writer)?;
    }
    Ok(())
}
