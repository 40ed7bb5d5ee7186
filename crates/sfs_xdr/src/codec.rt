ghost use Rattle.std.specs.Prelude.{◌≡◌, List, ℕ, ◌++◌, Ok, Err, OnOk, IfOk};
ghost use Rattle.sfs_base.specs.Reading.{IsExact};
ghost use Rattle.sfs_xdr.specs.Codec.{Reading};
ghost use Rattle.sfs_xdr.specs.declared.item_fault.ItemFault.TheVariants.{Malformed as malformed};

use crate::item_fault::ItemFault;
use crate::reader::Reader;
use crate::writer::Writer;
use sfs_base::NoMemory;
use std::alloc::Global;

/// A way to spell values as items one behind another, and to read them again.
///
/// Two laws hold of each: reading takes the spellings of a value and nothing else, whatever follows
/// them, so that no spelling begins another; and what is written of a value is one of its spellings.
pub trait Codec {
    /// What is spelled.
    type Value;

    /// What reading gives of some bytes.
    ghost read_of: { Reading Self.Value };

    /// The spellings that reading takes: the bytes that fill an item up are free.
    ghost spells: { Self.Value → List ℕ → Type 0 };

    /// What the type of a value makes sure of.
    ghost typed: { Self.Value → Type 0 };

    /// What a writer's caller makes sure of.
    ghost fits: { Self.Value → Type 0 };

    /// What writing spells.
    ghost spelling: { Self.Value → List ℕ };

    /// Reads the value that the bytes which are left begin with. `Malformed` where they begin with none;
    /// then the reader stands somewhere within them.
    fn read(alloc: Global, reader: &mut Reader) -> Result<Self::Value, ItemFault>
        ensures found { IfOk result (λ x. read_of reader.old ≡ Ok (x, reader.new)) }
        ensures malformed { result ≡ Err malformed → read_of reader.old ≡ Err tt };

    /// Writes a value. On [`NoMemory`] a part of it may be written.
    fn write(value: &Self::Value, writer: &mut Writer) -> Result<(), NoMemory>
        requires { fits value.now }
        ensures { OnOk result (writer.new ≡ writer.old ++ spelling value.now) };

    ghost exact: { IsExact read_of spells };

    ghost written: { (x : Self.Value) → typed x → fits x → spells x (spelling x) };
}
