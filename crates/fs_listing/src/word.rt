ghost use Rattle.std.specs.Prelude.{◌≡◌, ◌++◌, decimal, OnOk};
ghost use Rattle.hex.specs.Hex.{encode_lower};
ghost use Rattle.fs_listing.specs.Listing.{mode_word};

use itoa::Buffer;
use sfs_base::NoMemory;

/// A word of a line.
#[derive(Clone, Copy)]
pub enum Word<'a> {
    /// A text, as it stands.
    Text(&'a [u8]),
    /// A number, in decimal digits.
    Number(u64),
    /// The 12 bits of a mode, as four octal digits.
    Mode(u32),
    /// Bytes, as two hexadecimal digits each.
    Hex(&'a [u8]),
}

impl Word<'_> {
    ghost use Rattle.fs_listing.specs.Words.{text_of};

    /// Writes the word at the end of `out`. [`NoMemory`]: there is no memory for it.
    pub fn append(&self, out: &mut Vec<u8>) -> Result<(), NoMemory>
        ensures { OnOk result (out.new.items ≡ out.old.items ++ text_of self.now) }
    {
        match self {
            Word::Text(text) => Ok(out.extend_from_slice(text)?),
            Word::Number(n) => append_number(out, *n),
            Word::Mode(mode) => Ok(out.extend_from_slice(&mode_word(*mode))?),
            Word::Hex(bytes) => append_hex(out, bytes),
        }
    }
}

// The decimal digits of a number.
fn append_number(out: &mut Vec<u8>, n: u64) -> Result<(), NoMemory>
    ensures { OnOk result (out.new.items ≡ out.old.items ++ decimal n) }
{
    let mut digits = Buffer::new();
    Ok(out.extend_from_slice(digits.format(n).as_bytes())?)
}

// The digits of a mode, of three bits each.
fn mode_word(mode: u32) -> [u8; 4]
    ensures { result ≡ mode_word mode }
{
    let digit = |place: u32| b'0' + (mode / place % 8) as u8;
    [digit(0o1000), digit(0o100), digit(0o10), digit(1)]
}

// The two digits of each byte. More digits than a number counts find no memory.
fn append_hex(out: &mut Vec<u8>, bytes: &[u8]) -> Result<(), NoMemory>
    ensures { OnOk result (out.new.items ≡ out.old.items ++ encode_lower bytes.now) }
{
    let at = out.len();
    let end = at.checked_add(2 * bytes.len()).ok_or(NoMemory)?;
    out.resize(end, 0)?;
    hex::encode_to_slice(bytes, &mut out[at..]).unwrap();
    Ok(())
}
