ghost use Rattle.std.specs.Prelude.{◌≡◌, ◌↔◌, Option, IsTrue, length, IfOk};
ghost use Rattle.fs_layout.specs.declared.reference.Reference.{Reference};
ghost use Rattle.fs_layout.specs.Words.{AreWords, spelled};
ghost use Rattle.fs_layout.specs.References.{reference_words};
ghost use Rattle.fs_chain.specs.ReferenceLists.{SpellReferences, IsSpelledReference, references_in};

use fs_layout::{NotAReference, REFERENCES_PER_CHAIN, Reference, WORD_BYTES, read_words};

/// The words of a reference.
const REFERENCE_WORDS: usize = 2;

/// The bytes of a reference.
pub(crate) const REFERENCE_BYTES: usize = WORD_BYTES * REFERENCE_WORDS;

/// Whether the bytes behind a block's header spell references. It looks at all of them: with no branch in
/// the loop, the compiler tests several at once.
pub(crate) fn are_references(bytes: &[u8]) -> bool
    requires { length bytes.now ≡ 4080 }
    ensures { IsTrue result ↔ SpellReferences (references_in bytes.now) bytes.now }
{
    let mut all = true;
    for index in 0..REFERENCES_PER_CHAIN {
        let at = REFERENCE_BYTES * index;
        all &= is_reference(&bytes[at..at + REFERENCE_BYTES]);
    }
    all
}

// Whether eight bytes spell a reference, or none: a memory node without a block is neither.
fn is_reference(bytes: &[u8]) -> bool
    requires { length bytes.now ≡ 8 }
    ensures { IsTrue result ↔ IsSpelledReference bytes.now }
{
    let memory = u32::from_be_bytes([bytes[0], bytes[1], bytes[2], bytes[3]]);
    let place = u32::from_be_bytes([bytes[4], bytes[5], bytes[6], bytes[7]]);
    (place != 0) | (memory == 0)
}

/// The reference, or none, that eight bytes spell. [`NotAReference`] exactly where they spell neither.
pub(crate) fn reference_of(bytes: &[u8]) -> Result<Option<Reference>, NotAReference>
    ensures found { IfOk result (λ r. AreWords (reference_words r) × (bytes.now ≡ spelled (reference_words r))) }
    ensures only { (r : Option Reference) → AreWords (reference_words r) → bytes.now ≡ spelled (reference_words r) → result ≡ Ok r }
{
    let words: Option<[u32; REFERENCE_WORDS]> = read_words(bytes);
    let Some(words) = words else {
        return Err(NotAReference);
    };
    let [memory, place] = words;
    Reference::from_words(memory, place)
}
