ghost use Rattle.std.specs.Prelude.{◌≡◌, ◌||◌, false, is_some};
ghost use Rattle.fs_rules.specs.Good.{IsGood};
ghost use Rattle.fs_rules.specs.File.{is_directory, parent_of, slots_of};
ghost use Rattle.fs_rules.specs.Slots.{file_named, is_in_use};
ghost use Rattle.fs_rules.specs.Arguments.{at_number, is_dots};

use crate::live::file_at;
use fs_checks::is_dots;
use fs_content::{file_named, is_in_use};
use fs_edits::is_directory;
use fs_rules::{Content, PlainTree};

/// The directory in which the name of a directory lies; another file has none.
pub fn parent_of(content: &Content) -> Option<u32>
    ensures { result ≡ parent_of content.now }
{
    match content {
        Content::Directory { parent, .. } => Some(*parent),
        _ => None,
    }
}

/// The number that a name of a directory names; another file has no names.
pub fn number_named(content: &Content, name: &[u8]) -> Option<u32>
    ensures { result ≡ file_named (slots_of content.now) name.now }
{
    match content {
        Content::Directory { slots, .. } => file_named(slots, name),
        _ => None,
    }
}

/// Whether no new file of a directory can get a name: it is "." or "..", or is there.
pub fn is_taken(content: &Content, name: &[u8]) -> bool
    ensures { result ≡ (is_dots name.now || is_some (file_named (slots_of content.now) name.now)) }
{
    is_dots(name) || number_named(content, name).is_some()
}

/// Whether a name is in use in a directory; another file has none.
pub(crate) fn has_names(content: &Content) -> bool
    ensures { result ≡ is_in_use (slots_of content.now) }
{
    match content {
        Content::Directory { slots, .. } => is_in_use(slots),
        _ => false,
    }
}

/// Whether the file with a number is a directory.
pub(crate) fn is_directory_at(tree: &PlainTree, number: u32) -> bool
    requires { IsGood tree.now }
    ensures { result ≡ at_number tree.now number false (λ f. is_directory f.content) }
{
    match file_at(tree, number) {
        Some(file) => is_directory(&file.content),
        None => false,
    }
}

/// Whether a name is in use in the directory with a number.
pub(crate) fn is_in_use_at(tree: &PlainTree, number: u32) -> bool
    requires { IsGood tree.now }
    ensures { result ≡ at_number tree.now number false (λ f. is_in_use (slots_of f.content)) }
{
    match file_at(tree, number) {
        Some(file) => has_names(&file.content),
        None => false,
    }
}
