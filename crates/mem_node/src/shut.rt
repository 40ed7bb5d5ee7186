ghost use Rattle.std.specs.Prelude.{◌≡◌};
ghost use Rattle.mem_node.specs.Fault.{shut_by, shut_fault};

use crate::node_fault::NodeFault;
use gate_log::LogFault;

/// Why a memory node answers nothing until it is loaded again.
#[derive(Clone, Copy, Debug)]
pub(crate) enum Shut {
    /// Its disk failed.
    Down,
    /// Its log was full.
    Full,
}

impl Shut {
    /// What a memory node becomes after its log refused an entry.
    pub(crate) fn by(fault: LogFault) -> Option<Shut>
        ensures { result ≡ shut_by fault }
    {
        match fault {
            LogFault::Failed => Some(Shut::Down),
            LogFault::Full => Some(Shut::Full),
            LogFault::Damaged { .. } | LogFault::NoMemory => None,
        }
    }

    /// What it then answers.
    pub(crate) fn fault(self) -> NodeFault
        ensures { result ≡ shut_fault self }
    {
        match self {
            Shut::Down => NodeFault::Down,
            Shut::Full => NodeFault::Full,
        }
    }
}
