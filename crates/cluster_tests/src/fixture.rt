//! What the tests of a cluster share.
ghost use Rattle.std.specs.Prelude.{◌≡◌, ◌<◌, [], None, IfOk, OnOk};
ghost use Rattle.mini_tx.specs.Minitransactions.{refusal};
ghost use Rattle.cluster_tests.specs.Fixture.{AreAtRest, IsReady};

use disk_model::{Calls, PlanDisk, PlanShelf};
use link_model::Link;
use mini_tx::{Geometry4, Item, Items, Mini, MiniFault, NoMemory};
use sinfonia::{Cluster, ClusterFault, TxState};
use std::alloc::Global;

/// Two nodes and two memory nodes of one block and one inode.
pub(crate) const GEOMETRY: Geometry4 = Geometry4 {
    nodes: 2,
    memories: 2,
    blocks: 1,
    inodes: 1,
};

/// The bytes of an image, and where its block begins.
const IMAGE_BYTES: u32 = 16_384;

pub(crate) const BLOCK_AT: u32 = 12_288;

/// Why a row of calls ends early.
#[derive(Clone, Copy, Debug, PartialEq, Eq)]
pub(crate) enum RowFault {
    NoMemory,
    Format(ClusterFault),
    Mini(MiniFault),
    /// After this call something was not as it has to be.
    Step(u32),
}

impl From<NoMemory> for RowFault {
    fn from(_: NoMemory) -> RowFault {
        RowFault::NoMemory
    }
}

impl From<ClusterFault> for RowFault {
    fn from(fault: ClusterFault) -> RowFault {
        RowFault::Format(fault)
    }
}

impl From<MiniFault> for RowFault {
    fn from(fault: MiniFault) -> RowFault {
        RowFault::Mini(fault)
    }
}

/// Lays one more disk that was never written, whose calls with a number in `failing` fail.
pub(crate) fn lay(shelf: &mut PlanShelf, alloc: Global, failing: Calls) -> Result<(), NoMemory>
    requires { AreAtRest shelf.old }
    ensures { OnOk result (AreAtRest shelf.new) }
{
    match shelf.push(PlanDisk::new(alloc, failing)) {
        Ok(()) => Ok(()),
        Err((fault, _disk)) => Err(fault),
    }
}

/// A shelf without a disk.
pub(crate) fn bare(alloc: Global) -> PlanShelf
    ensures { AreAtRest result }
{
    PlanShelf::new(alloc, Calls::new(alloc))
}

/// A cluster on two disks that were never written.
pub(crate) fn formatted<L: Link + Drop>(
    alloc: Global,
    link: L,
) -> Result<Cluster<PlanDisk, L>, RowFault>
    requires { L.stands link [] }
    ensures { IfOk result (IsReady L.stands) }
{
    let mut shelf = bare(alloc);
    lay(&mut shelf, alloc, Calls::new(alloc))?;
    lay(&mut shelf, alloc, Calls::new(alloc))?;
    match Cluster::format(alloc, &mut shelf, link, GEOMETRY) {
        Ok(cluster) => Ok(cluster),
        Err(fault) => Err(fault.into()),
    }
}

/// A minitransaction of these items.
pub(crate) fn mini_of(alloc: Global, items: Items) -> Result<Mini, RowFault>
    ensures { IfOk result (λ mini. refusal mini 2 16384 ≡ None) }
{
    match Mini::new(alloc, items, GEOMETRY.memories, IMAGE_BYTES) {
        Ok(mini) => Ok(mini),
        Err(fault) => Err(fault.into()),
    }
}

/// A node that is idle begins a minitransaction.
pub(crate) fn begin<L: Link>(
    cluster: &mut Cluster<PlanDisk, L>,
    n: u32,
    mini: Mini,
) -> Result<(), RowFault>
    requires ready { IsReady L.stands cluster.old }
    requires there { n < 2 }
    requires mini { refusal mini 2 16384 ≡ None }
    ensures { OnOk result (IsReady L.stands cluster.new) }
{
    if !cluster.is_idle(n) {
        return Err(RowFault::Step(n));
    }
    if !cluster.has_room() {
        return Err(RowFault::NoMemory);
    }
    match cluster.begin(n, mini) {
        Ok(()) => Ok(()),
        Err(NoMemory) => Err(RowFault::NoMemory),
    }
}

/// Delivers a message that is there.
pub(crate) fn deliver<L: Link>(cluster: &mut Cluster<PlanDisk, L>, k: u64) -> Result<(), RowFault>
    requires { IsReady L.stands cluster.old }
    ensures { OnOk result (IsReady L.stands cluster.new) }
{
    if !cluster.has_room() {
        return Err(RowFault::NoMemory);
    }
    match cluster.message(k) {
        Some(_) => {}
        None => return Err(RowFault::Step(0)),
    }
    match cluster.deliver(k, None) {
        Ok(_) => Ok(()),
        Err(NoMemory) => Err(RowFault::NoMemory),
    }
}

/// Whether a node tells this.
pub(crate) fn is_at<L: Link>(cluster: &Cluster<PlanDisk, L>, n: u32, state: &TxState) -> bool
    requires ready { IsReady L.stands cluster.now }
    requires there { n < 2 }
{
    cluster.state(n) == state
}
