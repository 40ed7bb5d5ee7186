ghost use Rattle.std.specs.Prelude.{◌≡◌, ◌^◌, ◌<◌, length};
ghost use Rattle.std.specs.Int.{w32, w64, to_be_bytes};

/// The number that these 4 bytes spell, the highest first.
pub(crate) fn word_of(bytes: &[u8]) -> u32
    requires { length bytes.now ≡ 4 }
    ensures spelled { to_be_bytes w32 result ≡ bytes.now }
    ensures fits { result < 2 ^ 32 }
{
    u32::from_be_bytes([bytes[0], bytes[1], bytes[2], bytes[3]])
}

/// The number that these 8 bytes spell, the highest first.
pub(crate) fn number_of(bytes: &[u8]) -> u64
    requires { length bytes.now ≡ 8 }
    ensures spelled { to_be_bytes w64 result ≡ bytes.now }
    ensures fits { result < 2 ^ 64 }
{
    u64::from_be_bytes([
        bytes[0], bytes[1], bytes[2], bytes[3], bytes[4], bytes[5], bytes[6], bytes[7],
    ])
}
