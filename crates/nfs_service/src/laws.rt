//! That mounting leads to the root of the tree, and that what a datagram asks for is told by the rules of hearing.
ghost use Rattle.nfs_service.specs.Arguments.{TheTenCasesDecide};
ghost use Rattle.nfs_service.specs.Mounting.{TheRootIsMounted};

/// MNT of the one path that is exported answers OK and a handle, which names the root of every tree that has one in
/// its first generation.
pub fn the_root_is_mounted()
    ensures { TheRootIsMounted }
{}

/// The ten rules of hearing, over the arguments of NFS and of the mount protocol, hear all bytes as one thing and no
/// other, and a datagram asks for what it is heard as (`docs/FORMATS.md`, "Calls").
pub fn the_ten_cases_decide()
    ensures { TheTenCasesDecide }
{}
