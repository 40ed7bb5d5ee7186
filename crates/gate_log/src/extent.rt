ghost use Rattle.std.specs.Prelude.{◌+◌, ◌^◌, ◌<◌};

/// Where a log lies on its disk.
#[derive(Clone, Copy, Debug)]
pub(crate) struct Extent {
    /// The place of the first gate.
    pub(crate) base: u64,
    /// How far from there the closed gate is.
    pub(crate) end: u64,
    ghost fits: { base + 2 ^ 32 < 2 ^ 64 },
    ghost within: { end < 2 ^ 32 },
}
