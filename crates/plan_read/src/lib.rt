//! The planner of the procedures that read: GETATTR, LOOKUP, READLINK, READ, READDIR and STATFS.
//!
//! [`plan`] names the part that a call wants next, or gives its final minitransaction, which compares all that was looked at
//! and reads what the answer is made of. [`fetch`] is the minitransaction that reads a part, and [`keep`] adds what came back
//! to the work set. What a plan promises is told by [`plan`]'s contract (`docs/PROMISES.md`, "What a plan promises").
#![tactic(auto)]

mod laws;
mod lookup;
mod planning;
mod procedures;
mod space;

pub use laws::readings_answer;
pub use plan_forms::{AnswerForm, Plan};
pub use plan_keep::{KeepFault, keep};
pub use plan_parts::fetch;
pub use planning::plan;
