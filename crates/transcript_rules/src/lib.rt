//! Which transcripts are legal for a schedule, as definitions, and the values that they speak of; no code that runs.
//!
//! `specs/Book.antt` says what the lines so far tell, and `specs/Next.antt` which event comes next and what one line
//! more makes of the book. A line is judged by the book alone, four ways: `specs/Truth.antt` (the file system),
//! `specs/Carried.antt` (the messages that it rests on), `specs/Cause.antt` (why something ended), and
//! `specs/Place.antt` (where it stands). `specs/Legal.antt` puts them together. What follows from them is carried by
//! the functions of `laws`.
#![tactic(auto)]

mod arrival;
mod backup;
mod ended;
mod laws;
mod post;

pub use arrival::Arrival;
pub use backup::Backup;
pub use ended::Ended;
pub use laws::{nothing_follows_the_end, prefixes_are_legal, the_end_alone_is_legal};
pub use post::Post;
