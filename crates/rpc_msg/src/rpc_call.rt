use crate::cred::Cred;
use sfs_base::Bytes;

/// A call of a procedure (RFC 1057, section 8).
#[derive(Debug, Drop)]
pub struct RpcCall {
    /// The number under which the reply goes back.
    pub xid: u32,
    /// The program, which is [`NFS`](crate::NFS) or [`MOUNT`](crate::MOUNT).
    pub program: u32,
    /// The procedure of the program.
    pub procedure: u32,
    /// Who calls.
    pub cred: Cred,
    /// All bytes behind the verifier, with which the procedure's arguments begin.
    pub args: Bytes,
}
