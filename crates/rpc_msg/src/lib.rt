//! ONC RPC messages (RFC 1057): what a message that came says, and the reply to it.
//!
//! [`read_call`] tells what some bytes are heard as: a call of a procedure that is there, with its
//! caller; a refusal; or nothing that is answered. [`write_reply`] and [`write_garbage`] spell the
//! replies that a call gets above this layer, and [`write_call`] the call that a client sends. What a
//! message is heard as is in `specs/Heard.antt`, case by case in the order of the rules; that each list
//! of bytes is heard as one thing alone is the contract of [`heard_is_one`].
#![tactic(auto)]

mod arguments;
mod auth;
mod auth_why;
mod calling;
mod cred;
mod head;
mod heard;
mod hearing;
mod laws;
mod program;
mod reply;
mod rpc_call;
mod unix_body;

pub use arguments::Arguments;
pub use calling::write_call;
pub use cred::{Cred, Gids, MAX_GIDS, NOBODY};
pub use heard::Heard;
pub use hearing::read_call;
pub use laws::{heard_is_one, written_call_is_heard};
pub use program::{MOUNT, NFS, Program};
pub use reply::{write_garbage, write_reply};
pub use rpc_call::RpcCall;
pub use sfs_xdr::{Bytes, NoMemory};
