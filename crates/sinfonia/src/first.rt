ghost use Rattle.std.specs.Prelude.{◌≡◌, IfOk};
ghost use Rattle.cluster_seats.specs.Seats.{nodes_in};
ghost use Rattle.sinfonia.specs.First.{first_machines};

use cluster_seats::Seats;
use sfs_base::NoMemory;
use std::alloc::Global;
use tx_coord::Coordinator;

/// The boot number of a node's first start.
const FIRST_BOOT: u64 = 1;

/// The coordinators of so many nodes at their first start. [`NoMemory`]: there is no memory.
pub(crate) fn first_seats(alloc: Global, nodes: u32) -> Result<Seats, NoMemory>
    ensures { IfOk result (λ seats. nodes_in seats ≡ first_machines nodes) }
{
    let mut seats = Seats::new(alloc);
    for n in 0..nodes {
        seats.push(Coordinator::new(alloc, n, FIRST_BOOT))?;
    }
    Ok(seats)
}
