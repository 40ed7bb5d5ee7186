//! What puts leave.
ghost use Rattle.image_puts.specs.Maps.{FrontsArePut};
ghost use Rattle.image_puts.specs.Only.{PutsAreOnly};
ghost use Rattle.image_puts.specs.Puts.{PutsArePut};
ghost use Rattle.image_puts.specs.Takes.{ExchangesAreOwners};

/// Where each region is put once at most, the write items of puts leave in each of them just what was put, and nothing else
/// changes.
pub fn puts_are_put()
    ensures { PutsArePut }
{}

/// Puts into records and blocks of the files of edits, and into maps that tell who owns what then, touch no other file.
pub fn puts_are_only()
    ensures { PutsAreOnly }
{}

/// Blocks that files of edits give up, and free ones that they take, leave owners of blocks in which each other file has its
/// own; a block has an owner then if it was kept or taken.
pub fn exchanges_are_owners()
    ensures { ExchangesAreOwners }
{}

/// A map whose first bytes become those of a page has the bits of the page there, and its own behind them.
pub fn fronts_are_put()
    ensures { FrontsArePut }
{}
