ghost use Rattle.std.specs.Prelude.{◌≡◌, ◌≤◌, ◌↔◌, IsTrue, length, IfSome, IfNone, IfOk, IfErr};

use crate::slot_fault::SlotFault;
use fs_layout::{MAX_NAME_BYTES, WORD_BYTES, are_zeros, read_words, write_words};
use sfs_base::{Bytes, Seq};
use std::alloc::Global;

/// The words of a slot before its name: the number of the file, and the length of the name.
const HEAD_WORDS: usize = 2;

/// The bytes of a slot before its name.
const HEAD_BYTES: usize = WORD_BYTES * HEAD_WORDS;

/// The bytes of a slot.
pub const SLOT_BYTES: usize = 272;

/// The number in an empty slot.
const EMPTY: u32 = 0;

/// A name of a directory and the number of the file that it names. An empty slot has the number 0
/// and no name.
#[derive(Clone, Debug, PartialEq, Eq, Drop)]
pub struct Slot {
    pub number: u32,
    pub name: Bytes,
}

/// Slots, in order.
pub type Slots = Seq<Slot>;

impl Slot {
    ghost use Rattle.fs_dir.specs.Slots.{IsSlot, SpellsSlot, in_use, has_name};
    ghost use Rattle.fs_dir.specs.declared.slot.Slot.{Slot};
    ghost use Rattle.fs_dir.specs.declared.slot_fault.SlotFault.TheVariants.{Bad};

    /// Whether it has a file.
    pub fn is_in_use(&self) -> bool
        ensures { result ≡ in_use self.now }
    {
        self.number != EMPTY
    }

    /// Whether it has a file with this name.
    pub fn has_name(&self, name: &[u8]) -> bool
        ensures { result ≡ has_name name.now self.now }
    {
        self.is_in_use() && self.name.as_slice() == name
    }

    /// Whether a block may have it: its name has at most [`MAX_NAME_BYTES`] bytes, and it has none where it
    /// is empty.
    pub fn is_slot(&self) -> bool
        ensures { IsTrue result ↔ IsSlot self.now }
    {
        self.name.len() <= MAX_NAME_BYTES && (self.is_in_use() || self.name.is_empty())
    }

    /// The slot that [`SLOT_BYTES`] bytes spell. `Bad` exactly where they are no slot.
    pub(crate) fn read(alloc: Global, bytes: &[u8]) -> Result<Slot, SlotFault>
        requires { length bytes.now ≡ 272 }
        ensures found { IfOk result (λ s. SpellsSlot s bytes.now) }
        ensures bad { IfErr result (λ fault. fault ≡ Bad → (s : Slot) → SpellsSlot s bytes.now → ⊥) }
    {
        let (number, name) = parts_of(bytes).ok_or(SlotFault::Bad)?;
        Ok(Slot {
            number,
            name: Seq::from_slice(alloc, name)?,
        })
    }

    /// Writes the slot into [`SLOT_BYTES`] bytes.
    pub(crate) fn write(&self, into: &mut [u8])
        requires fits { IsSlot self.now }
        requires room { length into.old ≡ 272 }
        ensures { SpellsSlot self.now into.new }
    {
        write_parts(self.number, self.name.as_slice(), into);
    }
}

ghost use Rattle.fs_dir.specs.Slots.{IsSlot, SpellsSlot, slot_of};
ghost use Rattle.fs_dir.specs.declared.slot.Slot.{Slot};

// The number and the name in a slot's bytes.
fn parts_of(bytes: &[u8]) -> Option<(u32, &[u8])>
    requires { length bytes.now ≡ 272 }
    ensures found { IfSome result (λ p. SpellsSlot (slot_of p.0 p.1.now) bytes.now) }
    ensures none { IfNone result ((s : Slot) → SpellsSlot s bytes.now → ⊥) }
{
    let (head, body) = bytes.split_at(HEAD_BYTES);
    let words: [u32; HEAD_WORDS] = read_words(head)?;
    let [number, length] = words;
    let length = length as usize;
    if !is_head(number, length) {
        return None;
    }
    let (name, zeros) = body.split_at(length);
    if are_zeros(zeros) {
        Some((number, name))
    } else {
        None
    }
}

// Whether a slot may have this number and a name of this length.
fn is_head(number: u32, length: usize) -> bool
    ensures { IsTrue result ↔ ((length ≤ 255) × (number ≡ 0 → length ≡ 0)) }
{
    length <= MAX_NAME_BYTES && (number != EMPTY || length == 0)
}

// Writes the slot with this number and name.
fn write_parts(number: u32, name: &[u8], into: &mut [u8])
    requires fits { IsSlot (slot_of number name.now) }
    requires room { length into.old ≡ 272 }
    ensures { SpellsSlot (slot_of number name.now) into.new }
{
    let (head, body) = into.split_at_mut(HEAD_BYTES);
    write_words(&[number, name.len() as u32], head);
    let (front, zeros) = body.split_at_mut(name.len());
    front.copy_from_slice(name);
    zeros.fill(0);
}
