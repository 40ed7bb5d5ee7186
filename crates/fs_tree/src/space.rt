ghost use Rattle.std.specs.Prelude.{◌≡◌, ◌*◌};
ghost use Rattle.fs_rules.specs.Good.{IsGood};
ghost use Rattle.fs_rules.specs.Numbers.{free_blocks};
ghost use Rattle.fs_rules.specs.Reading.{space_answer};

use fs_decisions::free_blocks;
use fs_rules::{Answer, BLOCK_BYTES, PlainTree};

/// The most data of a READ or a WRITE, in bytes (RFC 1094, section 2.3.1).
pub(crate) const MAX_DATA_BYTES: u32 = 8_192;

/// What STATFS tells of the file system (RFC 1094, section 2.2.18).
#[tactic(auto, unfolding(fs_rules::specs::Reading::space_answer))]
pub(crate) fn space(tree: &PlainTree) -> Answer
    requires { IsGood tree.now }
    ensures { result ≡ space_answer tree.now }
{
    let free = free_blocks(tree);
    Answer::Space {
        tsize: MAX_DATA_BYTES,
        bsize: BLOCK_BYTES,
        blocks: tree.geometry.memories * tree.geometry.blocks,
        bfree: free,
        bavail: free,
    }
}
