//! The next event of a schedule, and whether one event is another.
//!
//! [`next_event`] spells drains out as the deliveries that they make, and says which event comes or that the next line is
//! refused; [`is_over`] says that what is due under the event that runs stands.
#![tactic(auto)]

mod coming;
mod next;
mod over;
mod same;

pub use next::{Comes, Next, next_event};
pub use over::is_over;
pub use same::is_event;
