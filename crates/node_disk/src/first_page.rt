ghost use Rattle.std.specs.Prelude.{◌≡◌, IfOk};
ghost use Rattle.std.specs.List.{flat_map};
ghost use Rattle.sfs_xdr.specs.Items.{word};
ghost use Rattle.node_disk.specs.Header.{header_words, header_bytes};

use mem_rules::Setup;
use sfs_base::NoMemory;
use sfs_xdr::Writer;
use std::alloc::Global;

/// Where the byte is that names the half in use.
pub const SELECTOR_AT: u64 = 0;

/// Where the header lies.
pub const HEADER_AT: u64 = 64;

/// Where the byte is that tells whether the disk is formatted.
pub const MARK_AT: u64 = 128;

/// That byte where it is.
pub const FORMATTED: u8 = 1;

/// The header of this memory node's disk.
pub fn header(alloc: Global, setup: Setup) -> Result<Vec<u8>, NoMemory>
    ensures { IfOk result (λ bytes. bytes.items ≡ header_bytes setup) }
{
    spelled(alloc, &words_of(setup))
}

/// Its words.
#[tactic(auto, unfolding(crate::specs::Header::header_words))]
fn words_of(setup: Setup) -> [u32; 8]
    ensures { result ≡ header_words setup }
{
    [
        0x5346_5344,
        1,
        1,
        setup.index,
        setup.geometry.nodes,
        setup.geometry.memories,
        setup.geometry.blocks,
        setup.geometry.inodes,
    ]
}

/// Words one behind another.
fn spelled(alloc: Global, words: &[u32]) -> Result<Vec<u8>, NoMemory>
    ensures { IfOk result (λ bytes. bytes.items ≡ flat_map word words.now) }
{
    let mut writer = Writer::new(alloc);
    for number in words {
        writer.u32(*number)?;
    }
    Ok(writer.finish())
}
