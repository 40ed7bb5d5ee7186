//! Reading takes just the spellings of a path.
ghost use Rattle.mount_proto.specs.Laws.{PathsAreExact};

/// Reading the arguments of MNT and UMNT takes a path of at most 1,024 bytes and nothing else, whatever
/// follows it (RFC 1094, appendix A.3).
pub fn paths_are_exact()
    ensures { PathsAreExact }
{}
