//! An NFS node: the machine between datagrams and minitransactions, without sockets and without a clock.
//!
//! A [`Node`] is handed the datagrams that come to it ([`Node::arrive`]), and how the minitransactions that it began ended
//! ([`Node::outcome`], [`Node::give_up`]), and gives the minitransactions that are to be begun and the replies. It serves
//! one call at a time, over what it has cached, and lets others wait. Each event begins one minitransaction at most. How
//! calls are planned is a parameter ([`Planner`]). What each event does is `specs/Steps.antt` of `node_rules`; after
//! [`NoMemory`] a node is of no more use (`docs/PROMISES.md`, "A node").
#![tactic(auto)]

mod ending;
mod next;
mod node;
mod serving;
mod starting;

pub use node::Node;
pub use node_cache::{Geometry, NoMemory};
pub use node_rules::{
    Arrival, Attempt, Cause, MAX_WAITING, NodeState, Output, Outputs, Pending, Planner, Running,
    Why, Work,
};
pub use plan_forms::{AnswerForm, Plan};
pub use tx_coord::Outcome;
