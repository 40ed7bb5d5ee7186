//! Laws of the disks of memory nodes.
ghost use Rattle.mem_node.specs.Laws.{DisksHaveOneState, BrokenDisksHaveNone, CrashImagesStandForStates};

/// A disk stands for one state.
pub fn disks_have_one_state()
    ensures { DisksHaveOneState }
{}

/// A disk whose log is damaged, or has an entry that is unfit, stands for none.
pub fn broken_disks_have_none()
    ensures { BrokenDisksHaveNone }
{}

/// What a crash leaves while a fit entry is appended, or none, stands for the state before it or for the one
/// after it.
pub fn crash_images_stand_for_states()
    ensures { CrashImagesStandForStates }
{}
