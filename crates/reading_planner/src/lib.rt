//! The planner of calls that read, as a node asks for it.
//!
//! [`plan_reading`] is `plan_read`'s plan with all that a node asks of plans: what it needs is what the call wants next and is
//! told by what is held, and what its final reads makes an answer that a client can be told. [`ReadingPlanner`] is a
//! [`Planner`](node_rules::Planner) of these calls alone.
#![tactic(auto)]

mod laws;
mod planner;
mod planning;

pub use laws::read_finals_are_sound;
pub use planner::ReadingPlanner;
pub use planning::plan_reading;
