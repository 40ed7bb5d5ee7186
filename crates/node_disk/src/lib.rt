//! The disk of a memory node but for what its log says: the first page, the two halves, and how a disk is laid
//! out for a memory node that took no entry yet.
//!
//! Byte 0 of the disk, the selector, names the half that is in use ([`image_at`], [`log_at`]). [`write_node`]
//! lays out a first page ([`front`]) and an image ([`fresh`]), each step safe before the next, between a mark that
//! is taken away before and set after them (`docs/FORMATS.md`, "The disk of a memory node").
#![tactic(auto)]

mod first_page;
mod format;
mod half;
mod images;
mod lay;

pub use first_page::{FORMATTED, HEADER_AT, MARK_AT, SELECTOR_AT, header};
pub use format::{front, write_node};
pub use half::{image_at, image_bytes, log_at};
pub use images::fresh;
