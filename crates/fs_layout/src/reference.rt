ghost use Rattle.std.specs.Prelude.{◌≡◌, ◌∷◌, [], ◌↔◌, Option, IsTrue, IfOk};

use std::error::Error;
use std::fmt;

/// A block of the cluster: the memory node on which it lies, and its number there, from 0.
#[derive(Clone, Copy, Debug, PartialEq, Eq)]
pub struct Reference {
    pub memory: u32,
    pub block: u32,
}

/// Two words are no reference: they name a memory node, and no block.
#[derive(Clone, Copy, Debug, PartialEq, Eq)]
pub struct NotAReference;

impl fmt::Display for NotAReference {
    fn fmt<W: fmt::Write>(&self, f: &mut fmt::Formatter<W>) -> fmt::Result {
        write!(f, "a memory node without a block is no reference")
    }
}

impl Error for NotAReference {}

impl Reference {
    ghost use Rattle.fs_layout.specs.References.{reference_words, IsReference};

    /// The reference, or none, that two words spell: the memory node, and the block's number counted
    /// from 1 (`docs/FORMATS.md`, "Images"). [`NotAReference`] exactly where they spell neither.
    pub fn from_words(memory: u32, place: u32) -> Result<Option<Reference>, NotAReference>
        ensures found { IfOk result (λ r. IsReference r × (reference_words r ≡ memory ∷ place ∷ [])) }
        ensures only { (r : Option Reference) → reference_words r ≡ memory ∷ place ∷ [] → result ≡ Ok r }
    {
        if place != 0 {
            Ok(Some(Reference {
                memory,
                block: place - 1,
            }))
        } else if memory == 0 {
            Ok(None)
        } else {
            Err(NotAReference)
        }
    }

    /// Whether the reference, or none, has words: a block's number counted from 1 is one.
    pub fn has_words(reference: Option<Reference>) -> bool
        ensures { IsTrue result ↔ IsReference reference }
    {
        match reference {
            Some(Reference { block, .. }) => block < u32::MAX,
            None => true,
        }
    }

    /// The two words that spell a reference, or none.
    pub fn to_words(reference: Option<Reference>) -> [u32; 2]
        requires { IsReference reference }
        ensures { result ≡ reference_words reference }
    {
        match reference {
            Some(Reference { memory, block }) => [memory, block + 1],
            None => [0, 0],
        }
    }
}
