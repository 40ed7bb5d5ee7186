ghost use Rattle.std.specs.Prelude.{◌+◌, ◌<◌, ◌^◌};

use crate::stage::Stage;

/// The turns that are left, in numbers: how many were made, how many are left, and the number that the next begins
/// with.
#[derive(Debug, Drop)]
pub struct Turns {
    pub stage: Stage,
    pub made: u32,
    pub left: u32,
    pub x: u64,
    ghost few: { made + left < 2 ^ 32 },
}
