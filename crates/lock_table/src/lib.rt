//! The index of the ranges that minitransactions lock on a memory node.
//!
//! [`Locks`] knows at each place which identifier locks it. The locks lie one behind another, so those that
//! meet a range are found by bisection, and no call walks over the others. Two identifiers never lock the same
//! place: a caller locks ranges for an identifier only where no other locks a place of them, after it took the
//! memory for them ([`Locks::reserve`]).
#![tactic(auto)]

mod calls;
mod lock;
mod locks;
mod order;
mod span;
mod taken;
mod window;

pub use lock::Lock;
pub use locks::Locks;
pub use mini_tx::Range;
pub use order::{are_equal, is_before};
pub use span::Span;
