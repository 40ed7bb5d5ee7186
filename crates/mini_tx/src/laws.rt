//! Reading takes just the spellings of entries, and what is written is one of them; valid items lie within
//! the memory nodes; a fresh image has the size of an image.
ghost use Rattle.mini_tx.specs.Laws.{EntriesAreExact, EntriesAreWritten};
ghost use Rattle.mini_tx.specs.FlatMemory.{ValidItemsLieWithin};
ghost use Rattle.mini_tx.specs.FreshImages.{FreshImagesHaveTheirSize};

/// Reading an entry takes its spelling and nothing else, so that no spelling begins another.
pub fn entries_are_exact()
    ensures { EntriesAreExact }
{}

/// What is written of an entry is its spelling.
pub fn entries_are_written()
    ensures { EntriesAreWritten }
{}

/// A fresh image has as many bytes as its numbers of blocks and inodes ask for, where there is an inode.
pub fn fresh_images_have_their_size()
    ensures { FreshImagesHaveTheirSize }
{}

/// Items that make a minitransaction over memory nodes of one size lie within them.
pub fn valid_items_lie_within()
    ensures { ValidItemsLieWithin }
{}
