ghost use Rattle.std.specs.Prelude.{◌≡◌, ◌-◌};
ghost use Rattle.fs_rules.specs.Attributes.{resized_content, with_attributes};

use fs_checks::Facts;
use fs_content::resize;
use fs_rules::{Content, File, Sattr, Stamp};
use std::alloc::Global;

/// The file with what was set: its content, its times and its other attributes.
#[tactic(auto, unfolding(fs_rules::specs::Attributes::with_attributes))]
pub fn with_attributes(alloc: Global, file: File, set: Sattr, now: Stamp) -> File
    ensures { result ≡ with_attributes now set file }
{
    let facts = Facts::of_file(&file).with_attributes(&set, now);
    facts.file(resized(alloc, file.content, file.size, facts.size))
}

// The content of a file whose size becomes another.
fn resized(alloc: Global, content: Content, old: u32, new: u32) -> Content
    ensures { result ≡ resized_content old new content }
{
    match content {
        Content::Regular(mut blocks) => {
            resize(alloc, &mut blocks, old, new);
            Content::Regular(blocks)
        }
        other => other,
    }
}
