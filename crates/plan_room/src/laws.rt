//! What holds of the blocks that are taken.
ghost use Rattle.plan_room.specs.Laws.{PickedAreFree};

/// They are free blocks of the cluster by maps that were looked at, all different, and as many as are needed where so many are
/// free.
pub fn picked_are_free()
    ensures { PickedAreFree }
{}
