//! That a cluster, as its story tells it, is one flat memory.
//!
//! There is no code here: `specs/History.antt` has the theorem in the words of flat memory and history over the story of a
//! cluster ([`story_rules`], [`story_laws`]), `specs/Messages.antt` what it may post, and `specs/Fits.antt` which table of
//! minitransactions of the protocol's machine fits a story; each function below has one law as its contract
//! (`docs/PROMISES.md`, "The story of a cluster").
#![tactic(auto)]

mod laws;

pub use laws::{
    cells_are_the_bytes, posted_are_fit, prepares_are_told, stories_fit, told_stories_are_flat,
};
