use crate::running::Running;
use crate::waiting::Waiting;
use node_cache::{Cache, Geometry};

/// All that a node has.
#[derive(Drop)]
pub struct NodeState {
    /// How large the cluster is.
    pub geometry: Geometry,
    pub cache: Cache,
    /// The arrival that runs.
    pub running: Option<Running>,
    /// Those that wait, in the order in which they came.
    pub waiting: Waiting,
}
