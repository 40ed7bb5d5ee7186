use sfs_base::Bytes;

/// A name of a directory, and the number of the file that it names.
#[derive(Debug, Drop)]
pub struct Entry {
    pub name: Bytes,
    pub file: u32,
}
