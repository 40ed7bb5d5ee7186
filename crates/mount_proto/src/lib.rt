//! The mount protocol, version 1 (RFC 1094, appendix A): by it a client gets the handle of the root.
//!
//! [`answer`] gives the result of a procedure. No procedure keeps anything: there is one export, "/",
//! which any client may mount. What is answered is in `specs/Mount.antt`.
#![tactic(auto)]

mod laws;
mod mounting;

pub use laws::paths_are_exact;
pub use mounting::{LAST_PROCEDURE, MAX_PATH_BYTES, answer};
pub use sfs_xdr::{ArgFault, Bytes};
