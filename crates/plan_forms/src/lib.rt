//! What a plan is: the part that a call wants next, or its final minitransaction.
//!
//! A [`Plan`] needs a part, or is final. The [`AnswerForm`] of a final makes the call's answer of what the minitransaction
//! reads: the pieces of a file's bytes, or the maps of the memory nodes. Which plan a call has is told by `plan_rules`.
#![tactic(auto)]

mod form;
mod joining;
mod plan;
mod space;

pub use form::{AnswerForm, Piece, Pieces};
pub use plan::{Plan, Reading};
