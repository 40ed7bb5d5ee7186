ghost use Rattle.std.specs.Prelude.{◌≡◌};
ghost use Rattle.rpc_msg.specs.Messages.{program_of};

/// The program NFS (RFC 1094, section 2.1).
pub const NFS: u32 = 100_003;

/// The program that gives out the handles of mounted directories (RFC 1094, appendix A).
pub const MOUNT: u32 = 100_005;

/// A program that is answered: its version, and its last procedure. The first is 0.
#[derive(Clone, Copy, Debug, PartialEq, Eq)]
pub struct Program {
    pub version: u32,
    pub last_procedure: u32,
}

impl Program {
    /// The program with this number; `None` where no such program is answered.
    pub fn of(number: u32) -> Option<Program>
        ensures { result ≡ program_of number }
    {
        match number {
            NFS => Some(Program {
                version: 2,
                last_procedure: 17,
            }),
            MOUNT => Some(Program {
                version: 1,
                last_procedure: 5,
            }),
            _ => None,
        }
    }
}
