//! A cluster: the coordinators of NFS nodes, memory nodes and the link between them, as one value.
//!
//! A [`Cluster`] is driven call by call: a node begins a minitransaction, messages are delivered in any order, a node
//! gives up or posts again. What it stands for is a story (`specs/Clusters.antt`), an argument of the relation that is
//! stored nowhere; each call is an act of every story that it stood for, and of each such story the cluster is one flat
//! memory (`docs/PROMISES.md`, "The cluster"). Actors do not crash here but where a disk fails or a log is full.
//!
//! Its caller owes that fewer than 2^62 messages are posted, which [`Cluster::has_room`] tells.
#![tactic(auto)]

mod cluster;
mod first;

pub use cluster::Cluster;
pub use cluster_calls::{Delivered, DownCause};
pub use cluster_format::ClusterFault;
pub use cluster_seats::{Outcome, TxState};
pub use sfs_base::NoMemory;
