//! That what is kept of a fetch is true, as a law.
//!
//! There is no code here. A fetch reads a part, and compares the stamp of its file where it reads blocks of one. Where it is
//! granted, what `keep` makes of the reads is true of the memory at that point, as all that was held before.
#![tactic(auto)]

mod laws;

pub use laws::kept_is_true;
