//! What a datagram that comes to a node asks for, and how it is answered.
//!
//! [`Request::read`] hears the bytes by the rules of RPC and reads the arguments of NFS and of the mount protocol: a
//! datagram gets no reply, or one that needs no file system, or it is a call of the file system. [`reply_to`] spells
//! the reply to such a call, and [`needs_files`] tells which of them need the file system at all. What the bytes are heard
//! as, and what they are answered, is `specs/Reply.antt`. That the handle which MNT answers is that of a tree's root is
//! the law [`the_root_is_mounted`].
#![tactic(auto)]

mod laws;
mod needs;
mod reply;
mod request;
mod service_arguments;

pub use laws::{the_root_is_mounted, the_ten_cases_decide};
pub use needs::needs_files;
pub use reply::reply_to;
pub use request::Request;
pub use service_arguments::ServiceArguments;
