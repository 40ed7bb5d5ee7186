//! What blocks are as a file system: by which owners of its blocks a flat memory stands for a tree.
//!
//! There is no code here: `specs/Stands.antt` says when a flat memory stands for a tree, and each function below has
//! one law as its contract (`docs/PROMISES.md`, "Images").
#![tactic(auto)]

mod laws;

pub use laws::{
    edits_are_shown, first_free_is_lowest, free_blocks_are_free_bits, fresh_stands,
    lowest_is_found, numbers_are_apart, one_tree, only_is_inverse, read_chains_are_chains,
    read_slots_are_slots, records_have_bytes, regions_are_apart, regions_are_inside,
    regions_have_constants, set_bits_are_counted, slots_are_found_alike, stamp_is_in_record,
    stamps_tell, taken_is_inverse, writes_stay_apart, written_is_shown,
};
