ghost use Rattle.std.specs.Prelude.{◌≡◌};

use fs_checks::Status;
use fs_rules::NoMemory;

/// Why a procedure ends before it changes anything.
#[derive(Debug, Drop)]
pub(crate) enum Stop {
    /// The call is refused: this is its answer.
    Refused(Status),
    /// Memory ran out.
    NoMemory,
}

impl From<Status> for Stop {
    ghost use Rattle.fs_tree.specs.declared.stop.Stop.TheVariants.{Refused};

    ghost from_gives = { λ status stop. stop ≡ Refused status };

    fn from(status: Status) -> Stop {
        Stop::Refused(status)
    }
}

impl From<NoMemory> for Stop {
    ghost use Rattle.fs_tree.specs.declared.stop.Stop.TheVariants.{NoMemory as OutOfMemory};

    ghost from_gives = { λ _ stop. stop ≡ OutOfMemory };

    fn from(_error: NoMemory) -> Stop {
        Stop::NoMemory
    }
}
