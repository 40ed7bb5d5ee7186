//! What puts of files show.
ghost use Rattle.file_puts.specs.Edits.{EditPutsAreShown};

use image_puts::puts_are_only;

/// Images that show a tree show it after edits, where what is put is just what each file of the edits becomes, and the maps
/// and the owners of blocks are those afterwards.
pub fn edit_puts_are_shown()
    ensures { EditPutsAreShown }
{
    puts_are_only();
}
