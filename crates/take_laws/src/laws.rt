//! What picked blocks and marked maps are to the images.
ghost use Rattle.take_laws.specs.Maps.{FreedMapsTell, MarkedMapsTell};
ghost use Rattle.take_laws.specs.Placed.{PartsArePlaced};
ghost use Rattle.take_laws.specs.Takes.{PickedMayBeTaken};

use image_puts::{exchanges_are_owners, fronts_are_put};

/// Blocks that are picked by maps which are the flat memory's own are blocks that no file has, and no two of them the same: a
/// file may take them for parts that it has not.
pub fn picked_may_be_taken()
    ensures { PickedMayBeTaken }
{}

/// Where the front of each map is put in which blocks were taken, and each other map is left, the maps of the blocks tell just
/// the owners that there are once these blocks were taken.
pub fn marked_maps_tell()
    ensures { MarkedMapsTell }
{
    fronts_are_put();
    exchanges_are_owners();
}

/// The same where blocks are given up, and none is taken.
pub fn freed_maps_tell()
    ensures { FreedMapsTell }
{
    fronts_are_put();
    exchanges_are_owners();
}

/// The parts of a file lie then where they lay, but for those for which it took blocks, which lie in these.
pub fn parts_are_placed()
    ensures { PartsArePlaced }
{}
