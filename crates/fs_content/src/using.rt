ghost use Rattle.std.specs.Prelude.{◌≡◌, ℕ, ◌+◌, ◌-◌, ◌^◌, ◌<◌, ◌≤◌, max, List, length};
ghost use Rattle.std.specs.Option.{option_map_or};
ghost use Rattle.std.specs.FinMap as map;
ghost use Rattle.fs_rules.specs.File.{greatest, used};
ghost use Rattle.fs_rules.specs.declared.content.Content.TheVariants.{Regular};
ghost use Rattle.fs_rules.specs.Contents.{store, written};
ghost use Rattle.fs_content.specs.Pieces.{from_on};

use fs_rules::{BLOCK_BYTES, Blocks, chains_up_to};

/// How many blocks of the cluster a file would use after these bytes were written at an offset: the stored
/// ones, and those that refer to them. Nothing is written.
pub fn used_after_write(blocks: &Blocks, offset: u32, bytes: &[u8]) -> usize
    requires { offset + length bytes.now < 2 ^ 32 }
    ensures { result ≡ used (Regular (written blocks.now offset bytes.now)) }
{
    match (bytes.len() as u32).checked_sub(1) {
        Some(further) => {
            let first = offset / BLOCK_BYTES;
            let last = (offset + further) / BLOCK_BYTES;
            let greatest = greatest_with(blocks, last) as usize;
            stored_after(blocks, first, last + 1) + chains_up_to(Some(greatest))
        }
        None => match blocks.last_key() {
            Some(greatest) => blocks.len() + chains_up_to(Some(greatest as usize)),
            None => blocks.len(),
        },
    }
}

// The greatest index of the stored blocks and one more.
fn greatest_with(blocks: &Blocks, last: u32) -> u32
    ensures { result ≡ option_map_or (λ index. max index last) (greatest blocks.now) last }
{
    blocks.last_key().map_or(last, |index| index.max(last))
}

// How many blocks would be stored, if those from one index to before another were.
fn stored_after(blocks: &Blocks, first: u32, end: u32) -> usize
    requires { first ≤ end }
    ensures exact { (block : ℕ → List ℕ) → result ≡ map.len (store block (from_on first (end - first)) blocks.now) }
    ensures small { result < 2 ^ 63 + 2 ^ 32 }
{
    let mut stored = blocks.len();
    for index in first..end {
        stored += match blocks.get(index) {
            Some(_) => 0,
            None => 1,
        };
    }
    stored
}
