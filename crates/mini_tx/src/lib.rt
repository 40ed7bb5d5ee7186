//! Minitransactions (Aguilera et al., "Sinfonia", SOSP 2007): what nodes and memory nodes tell each other.
//!
//! A [`TxId`] names a minitransaction and a [`CutId`] a cut of all images; both are ordered. An [`Item`]
//! compares, reads or writes bytes of a memory node, and a [`Mini`] is a minitransaction whose items are
//! valid together; [`perform`] says what it does to the flat memory. A [`Vote`] is a memory node's answer, and a [`Message`] what one [`Actor`] tells
//! another. An [`Entry`] is what a memory node's log keeps.
#![tactic(auto)]

mod actor;
mod cut_id;
mod entry;
mod entry_fault;
mod entry_reader;
mod entry_room;
mod entry_writer;
mod filled;
mod flat_memory;
mod geometry;
mod held_answer;
mod hyper;
mod id_codecs;
mod images;
mod item;
mod kept_id;
mod laws;
mod limits;
mod message;
mod mini;
mod mini_fault;
mod participants;
mod placed_item;
mod posted;
mod range;
mod refusal;
mod tx_id;
mod vote;
mod write_at;

pub use actor::Actor;
pub use cut_id::CutId;
pub use entry::Entry;
pub use entry_fault::EntryFault;
pub use entry_reader::read_entry;
pub use entry_writer::write_entry;
pub use flat_memory::perform;
pub use geometry::Geometry4;
pub use held_answer::HeldAnswer;
pub use images::{Images, Parts};
pub use item::{Item, Items};
pub use kept_id::{KeptId, KeptIds};
pub use laws::{
    entries_are_exact, entries_are_written, fresh_images_have_their_size, valid_items_lie_within,
};
pub use limits::{MAX_ITEM_BYTES, MAX_ITEMS};
pub use message::Message;
pub use mini::Mini;
pub use mini_fault::MiniFault;
pub use placed_item::{Placed, PlacedItem};
pub use posted::Posted;
pub use range::{Range, Ranges};
pub use sfs_base::{Bytes, NoMemory};
pub use tx_id::TxId;
pub use vote::{Reads, Vote};
pub use write_at::{WriteAt, Writes};

/// Numbers of memory nodes.
pub type Numbers = sfs_base::Seq<u32>;
