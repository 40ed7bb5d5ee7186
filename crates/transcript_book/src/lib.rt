//! What the lines of a transcript tell, as values that grow line by line.
//!
//! - [`Mail`] has the messages that were posted, which of them wait, and in which event each was handled last; it
//!   answers what a reply or the end of an arrival rests on.
//! - [`Arrivals`] has the datagrams that came, and beside them those that run or wait at their nodes.
//! - [`Said`] has what a line more, or the end of an event, asks of the lines under it.
//!
//! The definitions are those of `transcript_rules`: each value is seen as the list that the definitions speak of.
#![tactic(auto)]

mod arrivals;
mod mail;
mod open;
mod said;
mod votes;

pub use arrivals::Arrivals;
pub use mail::Mail;
pub use open::Open;
pub use said::Said;
