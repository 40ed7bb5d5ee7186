ghost use Rattle.std.specs.Prelude.{◌≡◌, ◌∷◌, map, IfOk};
ghost use Rattle.fs_listing.specs.Listing.{spaced};
ghost use Rattle.fs_listing.specs.Words.{text_of};

use crate::word::Word;
use sfs_base::{Bytes, NoMemory};
use std::alloc::Global;

/// The line of these words, with a space between two. [`NoMemory`]: there is no memory for it.
pub(crate) fn line_of(alloc: Global, first: &[u8], others: &[Word<'_>]) -> Result<Bytes, NoMemory>
    ensures { IfOk result (λ line. line ≡ spaced (first.now ∷ map text_of others.now)) }
{
    let mut text = Vec::from_slice(alloc, first)?;
    for word in others {
        text.push(b' ')?;
        word.append(&mut text)?;
    }
    Ok(Bytes::from(text))
}
