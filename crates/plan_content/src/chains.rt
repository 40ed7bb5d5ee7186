ghost use Rattle.std.specs.Prelude.{◌≡◌, option_map, Some};
ghost use Rattle.node_cache.specs.Cached.{held_of};
ghost use Rattle.plan_rules.specs.Blocks.{chain_steps};
ghost use Rattle.plan_looks.specs.Goes.{Goes};
ghost use Rattle.content_laws.specs.Chains.{chains_where};

use fs_layout::Attrs;
use node_cache::Held;
use plan_looks::{Looks, Stop, look_chain};

/// Looks at all chaining blocks of the file with this number and record, in order.
///
/// # Errors
///
/// [`Stop::Need`] where one of them is not held.
pub fn look_chains(held: &Held, looks: &mut Looks, number: u32, attrs: &Attrs) -> Result<(), Stop>
    requires { option_map (λ e. e.attrs) (held_of number held.now.entries) ≡ Some attrs.now }
    ensures { Goes held.now (chain_steps held.now number) looks.old looks.new result }
{
    for index in 0..attrs.chains {
        look_chain(held, looks, number, index)?;
    }
    Ok(())
}

// Looks at them where some of the file's bytes are read.
pub(crate) fn look_chains_where(
    held: &Held,
    looks: &mut Looks,
    number: u32,
    attrs: &Attrs,
    some: bool,
) -> Result<(), Stop>
    requires { option_map (λ e. e.attrs) (held_of number held.now.entries) ≡ Some attrs.now }
    ensures { Goes held.now (chains_where held.now number some) looks.old looks.new result }
{
    if some {
        look_chains(held, looks, number, attrs)
    } else {
        Ok(())
    }
}
