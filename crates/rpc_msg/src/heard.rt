use crate::rpc_call::RpcCall;
use sfs_base::Bytes;

/// What some bytes are heard as (`docs/FORMATS.md`, "Calls").
#[derive(Debug, Drop)]
pub enum Heard {
    /// A call of a procedure that is there.
    Call(RpcCall),
    /// Nothing that can be answered but by this reply.
    Refuse(Bytes),
    /// No call, or one that is cut short: there is no reply.
    Silent,
}
