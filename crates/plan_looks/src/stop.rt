use fs_checks::Status;
use node_cache::{NoMemory, Want};

/// Why a plan goes no further.
#[derive(Clone, Copy, Debug, PartialEq, Eq)]
pub enum Stop {
    /// This part is not held.
    Need(Want),
    /// The call is refused.
    Refused(Status),
    /// Memory ran out.
    NoMemory,
}

impl From<Status> for Stop {
    ghost use Rattle.std.specs.Prelude.{◌≡◌};
    ghost use Rattle.plan_looks.specs.declared.stop.Stop.TheVariants.{Refused};

    ghost from_gives = { λ status stop. stop ≡ Refused status };

    fn from(status: Status) -> Stop {
        Stop::Refused(status)
    }
}

impl From<NoMemory> for Stop {
    ghost use Rattle.std.specs.Prelude.{◌≡◌};
    ghost use Rattle.plan_looks.specs.declared.stop.Stop.TheVariants.{NoMemory as OutOfMemory};

    ghost from_gives = { λ _ stop. stop ≡ OutOfMemory };

    fn from(_error: NoMemory) -> Stop {
        Stop::NoMemory
    }
}
