ghost use Rattle.std.specs.Prelude.{◌+◌, ◌^◌, ◌<◌, vec_len};

/// A range that was written since the last sync, with the bytes that stood there before.
#[derive(Debug, Drop)]
pub(crate) struct Overwritten {
    pub(crate) at: u64,
    pub(crate) bytes: Vec<u8>,
    ghost fits: { at + vec_len bytes < 2 ^ 64 },
}
