//! What all planners share: what is told by the parts that are held, and how a part is fetched, judged and held.
//!
//! [`record_of`], [`chain_of`], [`chain_place`] and [`block_place`] answer what a work set tells of a file. [`fetch`] gives
//! the minitransaction that reads a part that is told. [`read_record`], [`read_link`] and [`read_block`] read what came back
//! where it is fit to be held, and [`put_record`], [`push_chain`], [`push_group`] and [`put_maps`] hold it. Which parts a call
//! wants is told by `plan_rules`. A caller sees to it that a work set is in order (`IsWorkSet`) where it fetches.

#![tactic(auto)]

mod fetching;
mod fit;
mod fit_chain;
mod items;
mod keeping;
mod lookup;
mod place;
mod reading;

pub use fetching::fetch;
pub use fit::{is_fit_record, is_inside, is_number};
pub use fit_chain::is_fit_chain;
pub use items::{push_block, push_stamp};
pub use keeping::{push_chain, push_group, put_maps, put_record};
pub use lookup::{chain_of, dir_blocks, entry_of, record_of};
pub use place::{block_place, chain_place, inode_of, layout_of, memory_of, record_place};
pub use reading::{read_block, read_link, read_record};
