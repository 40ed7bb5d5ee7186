ghost use Rattle.std.specs.Prelude.{◌≡◌, ◌+◌, ◌-◌, ◌^◌, ◌<◌, false, true, length, IfOk, IfErr};
ghost use Rattle.fs_rules.specs.Writing.{with_bytes};
ghost use Rattle.fs_rules.specs.File.{blocks_of, is_directory};
ghost use Rattle.fs_rules.specs.Contents.{written};
ghost use Rattle.fs_rules.specs.declared.content.Content.TheVariants.{Regular};

use fs_content::write_bytes;
use fs_rules::{Content, File, Stamp};
use std::alloc::Global;

/// The file after the bytes were written, or, where memory ran out, the file as it was.
#[tactic(auto, unfolding(fs_rules::specs::Writing::with_bytes))]
pub fn with_bytes(
    alloc: Global,
    file: File,
    offset: u32,
    bytes: &[u8],
    now: Stamp,
) -> Result<File, File>
    requires { offset + length bytes.now < 2 ^ 32 }
    ensures ok { is_directory file.content ≡ false → IfOk result (λ f. f ≡ with_bytes now offset bytes.now file) }
    ensures err { IfErr result (λ f. f ≡ file) }
{
    let (content, is_written) = written(alloc, file.content, offset, bytes);
    if !is_written {
        return Err(File { content, ..file });
    }
    Ok(File {
        content,
        size: file.size.max(offset + bytes.len() as u32),
        mtime: now,
        ..file
    })
}

// The content of a file after the bytes were written, and whether they were: not where memory ran out, and
// then it is as it was.
fn written(alloc: Global, content: Content, offset: u32, bytes: &[u8]) -> (Content, bool)
    requires { offset + length bytes.now < 2 ^ 32 }
    ensures done { result.1 ≡ true → is_directory content ≡ false → result.0 ≡ Regular (written (blocks_of content) offset bytes.now) }
    ensures kept { result.1 ≡ false → result.0 ≡ content }
{
    match content {
        Content::Regular(mut blocks) => {
            let done = write_bytes(alloc, &mut blocks, offset, bytes).is_ok();
            (Content::Regular(blocks), done)
        }
        other => (other, false),
    }
}
