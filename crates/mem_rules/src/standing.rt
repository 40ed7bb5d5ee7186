ghost use Rattle.std.specs.Prelude.{◌≡◌, IfOk};
ghost use Rattle.std.specs.Option.{option_copied};
ghost use Rattle.mem_rules.specs.Rules.{to_floor, is_above, vote_standing};

use crate::floor::Floor;
use crate::votes::copied;
use lock_table::{are_equal, is_before};
use mini_tx::{NoMemory, TxId, Vote};

/// Where an identifier stands to the floor of its coordinator.
#[derive(Drop)]
pub enum Standing {
    /// Above it, or there is none.
    Above,
    /// At it, and this is its vote.
    At(Vote),
    /// Below it.
    Below(TxId),
}

impl Standing {
    /// Where an identifier of the floor's coordinator stands to it.
    pub(crate) fn of(floor: Option<&Floor>, id: TxId) -> Result<Standing, NoMemory>
        ensures { IfOk result (λ standing. standing ≡ to_floor (option_copied floor.entry) id) }
    {
        let Some(floor) = floor else {
            return Ok(Standing::Above);
        };
        if is_before(floor.id, id) {
            Ok(Standing::Above)
        } else if are_equal(floor.id, id) {
            Ok(Standing::At(copied(&floor.vote)?))
        } else {
            Ok(Standing::Below(floor.id))
        }
    }
}

/// Whether an identifier stands above the floor of its coordinator.
pub(crate) fn is_above(floor: Option<&Floor>, id: TxId) -> bool
    ensures { result ≡ is_above (to_floor (option_copied floor.entry) id) }
{
    match floor {
        Some(floor) => is_before(floor.id, id),
        None => true,
    }
}

/// The vote of the floor, where it is this identifier.
pub(crate) fn vote_at(floor: Option<&Floor>, id: TxId) -> Option<&Vote>
    ensures { option_copied result ≡ vote_standing (to_floor (option_copied floor.entry) id) }
{
    let floor = floor?;
    if !is_before(floor.id, id) && are_equal(floor.id, id) {
        Some(&floor.vote)
    } else {
        None
    }
}
