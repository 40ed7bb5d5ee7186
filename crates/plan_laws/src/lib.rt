//! What holds of planners' parts, as laws.
//!
//! There is no code here. Each function has one law as its contract: an empty work set is in
//! order, and one in order stays so while parts are kept.
#![tactic(auto)]

mod laws;

pub use laws::{empty_is_in_order, kept_is_in_order};
