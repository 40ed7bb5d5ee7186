ghost use Rattle.nfs_service.specs.Arguments.{BeginsWith, read_service};
ghost use Rattle.nfs_service.specs.ArgumentLemmas.{service_grammar};

use nfs_proto::Call;
use rpc_msg::Arguments;
use sfs_base::Bytes;

/// The arguments of a procedure of the two programs that a node serves. It is for contracts alone.
pub enum ServiceArguments {
    /// Those of a procedure of NFS: its call.
    Files(Call),
    /// The path of MNT and UMNT.
    Path(Bytes),
    /// None, as those of the other procedures of the mount protocol.
    Nothing,
}

impl Arguments for ServiceArguments {
    ghost begins = { BeginsWith };

    ghost read_of = { read_service };

    ghost grammar = { service_grammar };
}
