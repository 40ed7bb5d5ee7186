//! What an NFS node has, and what it does with what comes to it: the definitions, and the types that they speak of.
//!
//! A node serves one [`Arrival`] at a time: it is [`Running`], with its work set and its last [`Attempt`], while others
//! are [`Waiting`]. All of a node is a [`NodeState`], and what it gives to its caller are [`Outputs`]. What an event makes
//! of it is `specs/Steps.antt`; the rest of `specs/` has its parts. Which parts of the cluster a call wants is told by
//! `plan_rules`; what its final minitransaction is, and how it is answered, by a [`Planner`].
#![tactic(auto)]

mod arrival;
mod attempt;
mod cause;
mod node_state;
mod output;
mod planner;
mod running;
mod waiting;

pub use arrival::Arrival;
pub use attempt::{Attempt, Pending};
pub use cause::{Cause, Why};
pub use node_state::NodeState;
pub use output::{Output, Outputs};
pub use planner::Planner;
pub use running::{Running, Work};
pub use waiting::{MAX_WAITING, Waiting};
