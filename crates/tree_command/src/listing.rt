ghost use Rattle.std.specs.Prelude.{◌≡◌, List, ℕ, [], OnOk};
ghost use Rattle.fs_listing.specs.Listing.{file_lines, listing};
ghost use Rattle.tree_command.specs.Counts.{CountsWrites};
ghost use Rattle.tree_command.specs.Writing.{text_of, WritesFront};

use crate::output::write_lines;
use crate::stop::Stop;
use fs_listing::{Listing, append_file};
use fs_rules::{File, PlainTree};
use schedule_text::Sink;
use std::alloc::Global;

/// Writes the listing of a tree, file by file.
pub(crate) fn write_listing<K: Sink>(
    alloc: Global,
    output: &mut K,
    tree: &PlainTree,
) -> Result<(), Stop>
    ensures counts { CountsWrites (K.faults output.old) (K.faults output.new) result }
    ensures front { (rest : List ℕ) × WritesFront (K.held output.old) (K.held output.new)
        (text_of (listing tree.now)) rest × OnOk result (rest ≡ []) }
{
    for (number, file) in tree.files.iter() {
        write_file(alloc, output, *number, file)?;
    }
    Ok(())
}

// Writes the lines of a file.
fn write_file<K: Sink>(alloc: Global, output: &mut K, number: u32, file: &File) -> Result<(), Stop>
    ensures counts { CountsWrites (K.faults output.old) (K.faults output.new) result }
    ensures front { (rest : List ℕ) × WritesFront (K.held output.old) (K.held output.new)
        (text_of (file_lines number file.now)) rest × OnOk result (rest ≡ []) }
{
    let mut lines = Listing::new(alloc);
    append_file(alloc, &mut lines, number, file)?;
    write_lines(alloc, output, lines.as_slice())
}
