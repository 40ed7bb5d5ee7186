ghost use Rattle.std.specs.Prelude.{◌≢◌, ◌↔◌, All, IsTrue};
ghost use Rattle.fs_rules.specs.Good.{IsName};

use fs_rules::MAX_NAME_BYTES;

/// Whether a slot of a directory may have this name: 1 to 255 bytes, none of them 0 or a slash, and neither "." nor ".."
/// (`docs/FORMATS.md`, "The rules of the file system"). It takes no memory.
pub fn is_name(name: &[u8]) -> bool
    ensures { IsTrue result ↔ IsName name.now }
{
    !name.is_empty()
        && name.len() <= MAX_NAME_BYTES
        && is_plain(name)
        && name != b".".as_slice()
        && name != b"..".as_slice()
}

// Whether no byte is 0 or a slash.
fn is_plain(name: &[u8]) -> bool
    ensures { IsTrue result ↔ All (λ b. (b ≢ 0) × (b ≢ 47)) name.now }
{
    name.iter().all(|b| *b != 0 && *b != b'/')
}
