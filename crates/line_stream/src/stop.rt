ghost use Rattle.std.specs.Prelude.{◌≡◌};
ghost use Rattle.line_stream.specs.declared.stop.Stop.TheVariants.{NoMemory as no_memory};

use sfs_base::NoMemory;

/// What ends a run before its time.
#[derive(Clone, Copy, Debug, PartialEq, Eq)]
pub enum Stop {
    /// The source failed.
    ReadFault,
    /// The sink failed.
    WriteFault,
    /// Memory ran out.
    NoMemory,
}

impl From<NoMemory> for Stop {
    ghost from_gives = { λ _ stop. stop ≡ no_memory };

    fn from(_error: NoMemory) -> Stop {
        Stop::NoMemory
    }
}
