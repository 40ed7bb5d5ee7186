ghost use Rattle.std.specs.Prelude.{◌≡◌};
ghost use Rattle.rpc_msg.specs.Messages.{nobody, is_nobody};

use sfs_base::Seq;
use std::alloc::Global;

/// Further groups of a caller: at most [`MAX_GIDS`].
pub type Gids = Seq<u32>;

/// The most further groups that a caller may have (RFC 1057, section 9.2).
pub const MAX_GIDS: u32 = 16;

/// The user and group that stand for nobody: those of a call without a credential.
pub const NOBODY: u32 = 65_534;

/// Who calls: the user, the group and further groups of the caller (RFC 1057, section 9.2).
#[derive(Debug, Drop)]
pub struct Cred {
    pub uid: u32,
    pub gid: u32,
    pub gids: Gids,
}

impl Cred {
    /// The caller of a call with no credential. It takes no memory.
    pub fn nobody(alloc: Global) -> Cred
        ensures { result ≡ nobody }
    {
        Cred {
            uid: NOBODY,
            gid: NOBODY,
            gids: Seq::new(alloc),
        }
    }

    /// Whether it is the caller of a call with no credential.
    pub fn is_nobody(&self) -> bool
        ensures { result ≡ is_nobody self.now }
    {
        self.uid == NOBODY && self.gid == NOBODY && self.gids.is_empty()
    }
}
