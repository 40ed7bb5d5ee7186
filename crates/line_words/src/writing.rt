//! Writing words, with one space between two.
ghost use Rattle.std.specs.Prelude.{◌≡◌, ◌++◌, All, map, take, vec_len, OnOk, OnErr};
ghost use Rattle.line_words.specs.Words.{text_of_words};
ghost use Rattle.line_words.specs.Writing.{text_of, IsShort, separator_before};

use crate::word::Word;
use sfs_base::NoMemory;
use std::alloc::AllocError;

/// Writes the words at the end of `out`, with one space between two. [`NoMemory`]: there is no memory for
/// them, and `out` holds what it held.
pub fn append_words(out: &mut Vec<u8>, words: &[Word<'_>]) -> Result<(), NoMemory>
    requires { All IsShort words.now }
    ensures ok { OnOk result (out.new.items ≡ out.old.items ++ text_of_words (map text_of words.now)) }
    ensures err { OnErr result (out.new.items ≡ out.old.items) }
{
    let start = out.len();
    match push_words(out, words) {
        Ok(()) => Ok(()),
        Err(AllocError) => {
            out.truncate(start);
            Err(NoMemory)
        }
    }
}

/// Writes the words as `append_words` does. On an error `out` begins with what it held.
fn push_words(out: &mut Vec<u8>, words: &[Word<'_>]) -> Result<(), AllocError>
    requires { All IsShort words.now }
    ensures ok { OnOk result (out.new.items ≡ out.old.items ++ text_of_words (map text_of words.now)) }
    ensures err { OnErr result (take (vec_len out.old) out.new.items ≡ out.old.items) }
{
    for (i, word) in words.iter().enumerate() {
        push_separator(out, i)?;
        word.append(out)?;
    }
    Ok(())
}

/// Writes what stands before the word at index `i`: a space, but nothing before the first word.
fn push_separator(out: &mut Vec<u8>, i: usize) -> Result<(), AllocError>
    ensures ok { OnOk result (out.new.items ≡ out.old.items ++ separator_before i) }
    ensures err { OnErr result (out.new.items ≡ out.old.items) }
{
    if i > 0 {
        out.push(b' ')?;
    }
    Ok(())
}
