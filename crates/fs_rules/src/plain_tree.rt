use crate::files::Files;
use crate::geometry::Geometry;
use crate::kept::Kept;
use sfs_base::Table;

/// The number of the root directory.
pub const ROOT: u32 = 1;

/// A tree as plain data: the files by their numbers, and what free numbers keep. That it is a file system
/// is the fact `IsGood` of `specs/Good.antt`.
#[derive(Debug, Drop)]
pub struct PlainTree {
    pub geometry: Geometry,
    pub files: Files,
    pub freed: Table<Kept>,
}
