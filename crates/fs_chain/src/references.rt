ghost use Rattle.std.specs.Prelude.{◌≡◌, ◌<◌, List, Option, None, Some, length, replicate, slice_get, slice_set, IfSome};
ghost use Rattle.fs_layout.specs.declared.reference.Reference.{Reference};
ghost use Rattle.fs_layout.specs.References.{IsReference};
ghost use Rattle.fs_chain.specs.ReferenceLists.{SpellReferences};

use crate::spelling::{REFERENCE_BYTES, are_references, reference_of};
use fs_layout::{REFERENCES_PER_CHAIN, Reference, write_words};
use std::fmt;
use std::marker::Model;

/// The bytes of the references of a chaining block.
const REFERENCES_BYTES: usize = REFERENCE_BYTES * REFERENCES_PER_CHAIN;

/// The references of a chaining block to the blocks of a file, in order; none where a block is not stored.
/// They are kept as the bytes that spell them, since making [`REFERENCES_PER_CHAIN`] values of these takes
/// many times as long as a copy. A contract sees the list of them.
#[derive(Clone, PartialEq, Eq, Drop)]
pub struct References {
    bytes: [u8; REFERENCES_BYTES],
}

impl Model for References {
    ghost use Rattle.std.specs.Prelude.{List, Option};
    ghost use Rattle.std.proofs.Common.{sym};
    ghost use Rattle.fs_layout.specs.declared.reference.Reference.{Reference};
    ghost use Rattle.fs_layout.specs.Words.{spelled};
    ghost use Rattle.fs_chain.specs.ReferenceLists.{SpellReferences, references_in, references_words};

    ghost Value = { List (Option Reference) };

    ghost view = { λ r. references_in r.bytes };

    ghost invariant = { λ r. SpellReferences (references_in r.bytes) r.bytes };

    ghost inverse = { λ references. record { bytes = spelled (references_words references) } };

    ghost inverse_ok = { λ r is i. record { bytes = sym is.bytes_are i } };
}

impl References {
    /// No reference at any index.
    pub fn new() -> References
        ensures { result ≡ replicate 510 None }
    {
        References {
            bytes: [0; REFERENCES_BYTES],
        }
    }

    /// How many there are: always [`REFERENCES_PER_CHAIN`].
    pub fn len(&self) -> usize
        ensures count { result ≡ 510 }
        ensures sized { length self.now ≡ 510 }
    {
        self.bytes[..].len() / REFERENCE_BYTES
    }

    /// The reference, or none, at an index below [`REFERENCES_PER_CHAIN`].
    pub fn get(&self, index: usize) -> Option<Reference>
        requires { index < 510 }
        ensures found { slice_get self.now index ≡ Some result }
        ensures word { IsReference result }
    {
        let at = REFERENCE_BYTES * index;
        reference_of(&self.bytes[at..at + REFERENCE_BYTES]).unwrap()
    }

    /// Puts a reference, or none, that has words ([`Reference::has_words`]) at an index below
    /// [`REFERENCES_PER_CHAIN`], and leaves all others as they are.
    pub fn set(&mut self, index: usize, reference: Option<Reference>)
        requires inside { index < 510 }
        requires fits { IsReference reference }
        ensures changed { self.new ≡ slice_set self.old index reference }
        ensures sized { length self.new ≡ 510 }
    {
        let at = REFERENCE_BYTES * index;
        write_words(
            &Reference::to_words(reference),
            &mut self.bytes[at..at + REFERENCE_BYTES],
        );
    }

    /// The references that the bytes behind a block's header spell. None exactly where they are no such
    /// references.
    pub(crate) fn read(bytes: &[u8]) -> Option<References>
        ensures found { IfSome result (λ r. SpellReferences r bytes.now) }
        ensures only { (r : List (Option Reference)) → SpellReferences r bytes.now → result ≡ Some r }
    {
        let bytes: &[u8; REFERENCES_BYTES] = bytes.as_array()?;
        if are_references(bytes) {
            Some(References { bytes: *bytes })
        } else {
            None
        }
    }

    /// Writes the references behind a block's header.
    pub(crate) fn write(&self, into: &mut [u8])
        requires { length into.old ≡ 4080 }
        ensures { SpellReferences self.now into.new }
    {
        into.copy_from_slice(&self.bytes);
    }
}

impl fmt::Debug for References {
    fn fmt<W: fmt::Write>(&self, f: &mut fmt::Formatter<W>) -> fmt::Result {
        let mut list = f.debug_list();
        for index in 0..REFERENCES_PER_CHAIN {
            list.entry(&self.get(index));
        }
        list.finish()
    }
}
