ghost use Rattle.std.specs.Prelude.{◌≡◌, ◌∷◌, ◌++◌, ◌≤◌, length, decimal, OnOk, OnErr};
ghost use Rattle.hex.specs.Hex.{encode_lower};

use crate::limits::MAX_DATAGRAM_BYTES;
use itoa::Buffer;
use std::alloc::AllocError;

/// A word of a line that is to be written.
#[derive(Clone, Copy)]
pub enum Word<'a> {
    /// A name, as it stands.
    Name(&'a [u8]),
    /// A number, in decimal digits.
    Number(u64),
    /// A letter and a number behind it.
    Mark(u8, u32),
    /// Bytes, as two hexadecimal digits each.
    Hex(&'a [u8]),
}

impl Word<'_> {
    ghost use Rattle.line_words.specs.Writing.{text_of, IsShort};

    /// Writes the word at the end of `out`. On an error `out` holds what it held.
    pub fn append(&self, out: &mut Vec<u8>) -> Result<(), AllocError>
        requires { IsShort self.now }
        ensures ok { OnOk result (out.new.items ≡ out.old.items ++ text_of self.now) }
        ensures err { OnErr result (out.new.items ≡ out.old.items) }
    {
        match self {
            Word::Name(text) => out.extend_from_slice(text),
            Word::Number(n) => append_number(out, *n),
            Word::Mark(letter, n) => append_mark(out, *letter, *n),
            Word::Hex(bytes) => append_hex(out, bytes),
        }
    }
}

fn append_number(out: &mut Vec<u8>, n: u64) -> Result<(), AllocError>
    ensures ok { OnOk result (out.new.items ≡ out.old.items ++ decimal n) }
    ensures err { OnErr result (out.new.items ≡ out.old.items) }
{
    let mut digits = Buffer::new();
    out.extend_from_slice(digits.format(n).as_bytes())
}

fn append_hex(out: &mut Vec<u8>, bytes: &[u8]) -> Result<(), AllocError>
    requires { length bytes.now ≤ MAX_DATAGRAM_BYTES }
    ensures ok { OnOk result (out.new.items ≡ out.old.items ++ encode_lower bytes.now) }
    ensures err { OnErr result (out.new.items ≡ out.old.items) }
{
    let at = out.len();
    out.resize(at + 2 * bytes.len(), 0)?;
    hex::encode_to_slice(bytes, &mut out[at..]).unwrap();
    Ok(())
}

fn append_mark(out: &mut Vec<u8>, letter: u8, n: u32) -> Result<(), AllocError>
    ensures ok { OnOk result (out.new.items ≡ out.old.items ++ letter ∷ decimal n) }
    ensures err { OnErr result (out.new.items ≡ out.old.items) }
{
    let at = out.len();
    out.push(letter)?;
    if let Err(error) = append_number(out, u64::from(n)) {
        out.truncate(at);
        return Err(error);
    }
    Ok(())
}
