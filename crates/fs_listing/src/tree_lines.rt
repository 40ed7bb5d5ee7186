ghost use Rattle.std.specs.Prelude.{◌≡◌, IfOk};
ghost use Rattle.fs_listing.specs.Listing.{listing};

use crate::file_lines::append_file;
use fs_rules::PlainTree;
use sfs_base::{Bytes, NoMemory, Seq};
use std::alloc::Global;

/// The lines of a tree, each the bytes of its text without the end of the line.
pub type Listing = Seq<Bytes>;

/// The lines that tell the files of a tree, with all that they contain (`docs/FORMATS.md`, "Listings").
/// What free numbers keep is not told. [`NoMemory`]: there is no memory for the lines.
pub fn listing(alloc: Global, tree: &PlainTree) -> Result<Listing, NoMemory>
    ensures { IfOk result (λ lines. lines ≡ listing tree.now) }
{
    let mut lines = Listing::new(alloc);
    for (number, file) in tree.files.iter() {
        append_file(alloc, &mut lines, *number, file)?;
    }
    Ok(lines)
}
