ghost use Rattle.std.specs.Prelude.{◌≡◌, IsTrue, ◌↔◌, length, replicate};

/// Whether every byte is 0, as those are that a record leaves unused.
pub fn are_zeros(bytes: &[u8]) -> bool
    ensures { IsTrue result ↔ (bytes.now ≡ replicate (length bytes.now) 0) }
{
    bytes.iter().all(|byte| *byte == 0)
}
