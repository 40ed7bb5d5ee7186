//! What survives a crash: a log of entries, and a boot number.
//!
//! A [`Log`] appends an entry behind its closed gate, makes it safe, and only then opens the gate, so
//! that a crash at any moment leaves the entries before or those and the new one; no checksum is
//! trusted. A [`BootCell`] writes the next number beside the present one before a selector names it.
//! Both stand on any [`Disk`](disk_model::Disk). Their caller owes a disk on which nothing is pending,
//! and after a failure a restart of it: then a log that is loaded has the entries before the append that
//! failed, or those and the new one. That a disk holds one log and one boot number is a law, carried
//! by the functions of `laws`.
#![tactic(auto)]

mod boot_cell;
mod boot_fault;
mod extent;
mod gate;
mod laws;
mod layout;
mod log;
mod log_fault;
mod numbers;
mod scan;
mod side;
mod through;
mod window;

pub use boot_cell::BootCell;
pub use boot_fault::BootFault;
pub use laws::{damaged_logs_have_none, disks_have_one_boot, logs_have_one_list};
pub use layout::MAX_LOG_BYTES;
pub use log::Log;
pub use log_fault::LogFault;
pub use side::Side;
pub use through::write_through;
