ghost use Rattle.std.specs.Prelude.{◌≡◌, ◌≤◌, ◌+◌, ◌-◌, ◌^◌, ◌<◌, ℕ, false, None, Some, length, IfOk, IfErr};
ghost use Rattle.nfs_proto.specs.declared.call.Call.TheVariants.{Write};
ghost use Rattle.nfs_proto.specs.declared.stamp.Stamp.{Stamp as AStamp};
ghost use Rattle.fs_rules.specs.Good.{IsGood};
ghost use Rattle.fs_rules.specs.Arguments.{file_of};
ghost use Rattle.fs_rules.specs.Statuses.{first_failure};
ghost use Rattle.fs_rules.specs.Writing.{write_checks};
ghost use Rattle.fs_rules.specs.File.{used, blocks_of, is_directory};
ghost use Rattle.fs_rules.specs.Contents.{written};
ghost use Rattle.fs_rules.specs.declared.content.Content.TheVariants.{Regular};
ghost use Rattle.fs_rules.specs.Respond.{respond};
ghost use Rattle.fs_decisions.specs.Steps.{Fits, refused};

use crate::live::live_file;
use fs_checks::{Facts, Status};
use fs_content::used_after_write;
use fs_rules::{Content, Cred, File, Handle, PlainTree};

/// The file, where the call may write these bytes to it.
pub fn may_write<'a>(
    tree: &'a PlainTree,
    handle: &Handle,
    offset: u32,
    bytes: &[u8],
    cred: &Cred,
) -> Result<&'a File, Status>
    requires good { IsGood tree.now }
    requires few { length bytes.now ≤ 8192 }
    ensures there { IfOk result (λ f. file_of tree.now handle.now.0 ≡ Some f.now) }
    ensures fits { IfOk result (λ f. Fits f.now) }
    ensures checked { IfOk result (λ f. first_failure (write_checks f.now cred.now offset bytes.now) ≡ None) }
    ensures err { IfErr result (λ s. (now : AStamp) → (begin total start : ℕ) → respond tree.now (Write handle.now begin offset total bytes.now) cred.now now start ≡ refused tree.now s.0) }
{
    let file = live_file(tree, handle)?;
    Facts::of_file(file).check_write(offset, bytes, cred)?;
    Ok(file)
}

/// By how many blocks a file grows where these bytes are written to it; a directory is not written.
pub fn rise(file: &File, offset: u32, bytes: &[u8]) -> usize
    requires { offset + length bytes.now < 2 ^ 32 }
    ensures { is_directory file.now.content ≡ false → result ≡ used (Regular (written (blocks_of file.now.content) offset bytes.now)) - used file.now.content }
{
    let after = match &file.content {
        Content::Regular(blocks) | Content::Link(blocks) => {
            used_after_write(blocks, offset, bytes)
        }
        Content::Directory { .. } => 0,
    };
    after.saturating_sub(file.content.used())
}
