ghost use Rattle.std.specs.Prelude.{◌≡◌, ◌<◌, ◌^◌, ◌++◌, OnOk};
ghost use Rattle.std.proofs.Common.{refl};
ghost use Rattle.sfs_xdr.specs.Items.{word, words, boolean};
ghost use Rattle.sfs_xdr.specs.Codec.{number_item, boolean_item, IsNumber, IsBoolean};
ghost use Rattle.sfs_xdr.specs.CodecLemmas.{number_exact, boolean_item_exact};

use crate::codec::Codec;
use crate::item_fault::ItemFault;
use crate::reader::Reader;
use crate::writer::Writer;
use sfs_base::NoMemory;
use std::alloc::Global;

/// A number (RFC 1014, section 3.2).
impl Codec for u32 {
    type Value = u32;

    ghost read_of = { number_item };

    ghost spells = { IsNumber };

    ghost typed = { λ n. n < 2 ^ 32 };

    ghost fits = { λ n. Unit {0} };

    ghost spelling = { word };

    #[tactic(auto, unfolding(crate::specs::Codec::plainly))]
    fn read(_alloc: Global, reader: &mut Reader) -> Result<u32, ItemFault> {
        match reader.u32() {
            Ok(number) => Ok(number),
            Err(_) => Err(ItemFault::Malformed),
        }
    }

    fn write(value: &u32, writer: &mut Writer) -> Result<(), NoMemory> {
        writer.u32(*value)
    }

    ghost exact = { number_exact };

    ghost written = { λ n typed fits. (typed, refl) };
}

/// A boolean (RFC 1014, section 3.4).
impl Codec for bool {
    type Value = bool;

    ghost read_of = { boolean_item };

    ghost spells = { IsBoolean };

    ghost typed = { λ b. Unit {0} };

    ghost fits = { λ b. Unit {0} };

    ghost spelling = { boolean };

    #[tactic(auto, unfolding(crate::specs::Codec::plainly))]
    fn read(_alloc: Global, reader: &mut Reader) -> Result<bool, ItemFault> {
        match reader.boolean() {
            Ok(value) => Ok(value),
            Err(_) => Err(ItemFault::Malformed),
        }
    }

    fn write(value: &bool, writer: &mut Writer) -> Result<(), NoMemory> {
        writer.boolean(*value)
    }

    ghost exact = { boolean_item_exact };

    ghost written = { λ b typed fits. refl };
}

/// Writes numbers one behind another. On [`NoMemory`] a front of them may be written.
pub fn write_words(writer: &mut Writer, numbers: &[u32]) -> Result<(), NoMemory>
    ensures { OnOk result (writer.new ≡ writer.old ++ words numbers.now) }
{
    for number in numbers {
        writer.u32(*number)?;
    }
    Ok(())
}
