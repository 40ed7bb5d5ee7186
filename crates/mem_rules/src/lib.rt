//! The rules of a memory node as a pure state machine: no disk, no log.
//!
//! A [`Memory`] is what a memory node took from its log: for each coordinator the floor, which is the greatest
//! identifier that was voted on with an entry, with that vote; the kept records of granted votes of several
//! participants; the cut floor; and the image. [`Memory::react`] says what it does with a message, and changes
//! nothing: the [`Reaction`] has the entry that is to be appended, and the message that is to be sent once it
//! is safe. [`Memory::settle`] then takes the entry, for which [`Memory::reserve`] took the memory before.
//!
//! The rules are definitions (`specs/Rules.antt`), and so are the state that entries make (`specs/State.antt`),
//! which entries and messages a memory node may meet (`specs/Fit.antt`), and what holds of each state
//! (`specs/Good.antt`).
#![tactic(auto)]

mod allows;
mod difference;
mod fits;
mod floor;
mod floors;
mod image;
mod items;
mod kept;
mod laws;
mod locks;
mod memory;
mod order;
mod react;
mod reaction;
mod records;
mod room;
mod rule;
mod setup;
mod standing;
mod typed;
mod votes;

pub use difference::Difference;
pub use floor::Floor;
pub use kept::Kept;
pub use laws::{
    entries_keep_states_good, fit_entries_are_typed, opened_states_are_good, reactions_are_fit,
};
pub use memory::Memory;
pub use reaction::Reaction;
pub use room::Room;
pub use rule::Rule;
pub use setup::Setup;
pub use standing::Standing;
pub use typed::names_are_typed;
