ghost use Rattle.std.specs.Prelude.{◌≡◌, [], ◌∷◌, IfOk};
ghost use Rattle.node_cache.specs.declared.want.Want.TheVariants.{Map};
ghost use Rattle.plan_rules.specs.declared.look.Look.TheVariants as look;
ghost use Rattle.plan_rules.specs.Steps.{Looks as look_at, is_held};
ghost use Rattle.plan_rules.specs.Told.{block_bits, inode_bits, map_of};
ghost use Rattle.plan_rules.specs.Works.{IsWorkSet};
ghost use Rattle.plan_looks.specs.Goes.{Goes};

use crate::looks::Looks;
use crate::stop::Stop;
use node_cache::{Held, Want};
use plan_rules::Look;

/// The bytes of the map of the blocks, which stand before those of the inodes.
const MAP_BYTES: usize = 2_048;

/// Looks at the bits of the blocks of a memory node.
///
/// # Errors
///
/// [`Stop::Need`] where its maps are not held.
pub fn look_block_bits<'a>(held: &'a Held, looks: &mut Looks, memory: u32) -> Result<&'a [u8], Stop>
    requires { IsWorkSet held.now }
    ensures goes { Goes held.now (look_at (look.BlockBits memory) ∷ []) looks.old looks.new result }
    ensures gives { IfOk result (λ bits. bits.now ≡ block_bits held.now memory) }
{
    if !has_maps(held, memory) {
        return Err(Stop::Need(Want::Map(memory)));
    }
    looks.push(Look::BlockBits(memory))?;
    Ok(block_bits_of(held, memory))
}

/// Looks at the bits of the inodes of a memory node.
///
/// # Errors
///
/// [`Stop::Need`] where its maps are not held.
pub fn look_inode_bits<'a>(held: &'a Held, looks: &mut Looks, memory: u32) -> Result<&'a [u8], Stop>
    requires { IsWorkSet held.now }
    ensures goes { Goes held.now (look_at (look.InodeBits memory) ∷ []) looks.old looks.new result }
    ensures gives { IfOk result (λ bits. bits.now ≡ inode_bits held.now memory) }
{
    if !has_maps(held, memory) {
        return Err(Stop::Need(Want::Map(memory)));
    }
    looks.push(Look::InodeBits(memory))?;
    Ok(inode_bits_of(held, memory))
}

// Whether the maps of a memory node are held.
fn has_maps(held: &Held, memory: u32) -> bool
    ensures { result ≡ is_held held.now (Map memory) }
{
    match held.maps.as_slice().get(memory as usize) {
        Some(Some(_)) => true,
        _ => false,
    }
}

/// The bits of the blocks of a memory node; none where its maps are not held.
pub(crate) fn block_bits_of(held: &Held, memory: u32) -> &[u8]
    ensures { result.now ≡ block_bits held.now memory }
{
    let page = page_of(held, memory);
    &page[..MAP_BYTES.min(page.len())]
}

/// The bits of the inodes of a memory node; none where its maps are not held.
pub(crate) fn inode_bits_of(held: &Held, memory: u32) -> &[u8]
    ensures { result.now ≡ inode_bits held.now memory }
{
    let page = page_of(held, memory);
    &page[MAP_BYTES.min(page.len())..]
}

// The page with the maps of a memory node; none where it is not held.
fn page_of(held: &Held, memory: u32) -> &[u8]
    ensures { result.now ≡ map_of held.now memory }
{
    match held.maps.as_slice().get(memory as usize) {
        Some(Some(page)) => page.as_slice(),
        _ => &[],
    }
}
