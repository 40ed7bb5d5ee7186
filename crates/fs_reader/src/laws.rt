//! Laws of the marks of all files, which the reading of a whole tree stands on.
ghost use Rattle.fs_reader.specs.Shown.{ShownFilesAreRead};
ghost use Rattle.fs_reader.specs.Trees.{FilesTakeTheirs, MarksTellOwners};

/// Files that take their marks one after another, each from what the ones before left, share no block.
pub fn files_take_theirs()
    ensures { FilesTakeTheirs }
{}

/// Where the marks began as the maps of the images, and all files took theirs and none is left, the blocks have owners,
/// whose bits are the maps.
pub fn marks_tell_owners()
    ensures { MarksTellOwners }
{}

/// A file of a good tree that images show is the one of its record, and its parts lie where the record and the blocks
/// tell.
pub fn shown_files_are_read()
    ensures { ShownFilesAreRead }
{}
