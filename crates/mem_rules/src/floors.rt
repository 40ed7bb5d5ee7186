ghost use Rattle.std.specs.Prelude.{◌≡◌, ◌<◌, vec_len, replicate, None, IfOk};
ghost use Rattle.std.specs.Option.{option_copied};
ghost use Rattle.mem_rules.specs.Rules.{is_above};
ghost use Rattle.mem_rules.specs.State.{raise, raised_cut};

use crate::floor::Floor;
use crate::order::is_earlier;
use lock_table::is_before;
use mini_tx::{CutId, NoMemory, TxId, Vote};
use std::alloc::Global;

/// No floor, for each of so many coordinators.
pub(crate) fn no_floors(alloc: Global, nodes: u32) -> Result<Vec<Option<Floor>>, NoMemory>
    ensures { IfOk result (λ floors. floors.items ≡ replicate nodes None) }
{
    let mut floors = Vec::new(alloc);
    for _count in 0..nodes {
        floors.push(None)?;
    }
    Ok(floors)
}

/// Raises the floor of the identifier's coordinator to it.
pub(crate) fn raise(floors: &mut Vec<Option<Floor>>, id: TxId, vote: Vote)
    requires { id.coord < vec_len floors.old }
    ensures { floors.new.items ≡ raise floors.old.items id vote }
{
    let place = &mut floors[id.coord as usize];
    let is_above = match place {
        Some(floor) => is_before(floor.id, id),
        None => true,
    };
    if is_above {
        *place = Some(Floor { id, vote });
    }
}

/// The cut floor that is raised to a cut.
pub(crate) fn raised(floor: Option<CutId>, cut: CutId) -> Option<CutId>
    ensures { result ≡ raised_cut floor cut }
{
    match floor {
        Some(floor) => {
            if is_earlier(floor, cut) {
                Some(cut)
            } else {
                Some(floor)
            }
        }
        None => Some(cut),
    }
}
