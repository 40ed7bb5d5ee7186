//! Where in the history votes were cast.
//!
//! Of the minitransaction that each node began last, [`Notes`] has how long the history was just before its last vote
//! with an entry was cast, and just before each vote without one, by the number of its message. What a note says of a
//! story is defined in `specs/Noted.antt`; what each call makes of it in `specs/Notes.antt`.
#![tactic(auto)]

mod look;
mod note;
mod notes;

pub use look::Look;
pub use note::Note;
pub use notes::Notes;
