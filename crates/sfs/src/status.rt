ghost use Rattle.std.specs.Prelude.{◌≡◌};
ghost use Rattle.sfs.specs.Status.{code_of, ended_as, stopped_as};

use crate::ending::Ending;
use line_stream::Stop;
use std::fmt::{self, Display, Formatter};

/// How a run of the program ended.
#[derive(Clone, Copy, Debug, PartialEq, Eq)]
pub enum Status {
    /// It did what the words ask for.
    Done,
    /// What it checked is not as it must be.
    Differs,
    /// The words are none that the program knows.
    Usage,
    /// A line of the input is refused.
    Refused,
    /// The input failed.
    ReadFault,
    /// The output failed.
    WriteFault,
    /// Memory ran out.
    NoMemory,
    /// A disk failed.
    DiskFault,
    /// A port failed.
    PortFault,
}

impl Status {
    /// The exit status of the program, from 0 for [`Status::Done`] to 8, in the order above.
    pub fn code(self) -> u8
        ensures { result ≡ code_of self }
    {
        match self {
            Status::Done => 0,
            Status::Differs => 1,
            Status::Usage => 2,
            Status::Refused => 3,
            Status::ReadFault => 4,
            Status::WriteFault => 5,
            Status::NoMemory => 6,
            Status::DiskFault => 7,
            Status::PortFault => 8,
        }
    }
}

/// The words for a status, as they stand on standard error.
impl Display for Status {
    fn fmt<W: fmt::Write>(&self, f: &mut Formatter<W>) -> fmt::Result {
        f.write_str(match self {
            Status::Done => "done",
            Status::Differs => "differs",
            Status::Usage => "usage",
            Status::Refused => "refused",
            Status::ReadFault => "read fault",
            Status::WriteFault => "write fault",
            Status::NoMemory => "no memory",
            Status::DiskFault => "disk fault",
            Status::PortFault => "port fault",
        })
    }
}

impl From<Ending> for Status {
    ghost from_gives = { λ ending status. status ≡ ended_as ending };

    fn from(ending: Ending) -> Status {
        match ending {
            Ending::Ended => Status::Done,
            Ending::Refused => Status::Refused,
        }
    }
}

impl From<Stop> for Status {
    ghost from_gives = { λ stop status. status ≡ stopped_as stop };

    fn from(stop: Stop) -> Status {
        match stop {
            Stop::ReadFault => Status::ReadFault,
            Stop::WriteFault => Status::WriteFault,
            Stop::NoMemory => Status::NoMemory,
        }
    }
}
