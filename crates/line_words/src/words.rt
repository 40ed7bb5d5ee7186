ghost use Rattle.std.specs.Prelude.{◌≡◌, ◌≢◌, ◌==◌, ◌∷◌, position, slice_index, false, Some, None, IfSome, IfNone, MatchResult};
ghost use Rattle.std.specs.List.{list_all};
ghost use Rattle.line_words.specs.declared.line_fault.LineFault.TheVariants as faults;
ghost use Rattle.line_words.specs.Words.{space, words_of, words_left, has_leading_zero, is_numeral, number_of, is_lower_hex_digit, bytes_of};
ghost use Rattle.line_words.specs.Reading.{Gives, Answers, Skips, word_at, number_at, after_word, last_bytes, last_byte, byte_of, at_end};

use crate::limits::MAX_DATAGRAM_BYTES;
use crate::line_fault::LineFault;
use sfs_base::Bytes;
use std::alloc::Global;
use std::marker::Model;

/// The words of a line that are left to be read, seen as their list.
#[derive(Debug, Drop)]
pub struct Words<'a> {
    rest: Option<&'a [u8]>,
}

impl<'a> Model for Words<'a> {
    ghost use Rattle.std.specs.Prelude.{List, ℕ};
    ghost use Rattle.line_words.specs.Words.{words_left};

    ghost Value = { List (List ℕ) };

    ghost view = { λ w. words_left w.rest };
}

impl<'a> Words<'a> {
    /// The words of a line.
    pub fn new(text: &'a [u8]) -> Words<'a>
        ensures { result ≡ words_of text.now }
    {
        Words { rest: Some(text) }
    }

    /// The next word. Bad: none is left.
    pub fn word(&mut self) -> Result<&'a [u8], LineFault>
        ensures { Gives (λ word. word.now) result self.new (word_at self.old) }
    {
        let rest = self.rest.ok_or(LineFault::Bad)?;
        let (word, after) = split_word(rest);
        self.rest = after;
        Ok(word)
    }

    /// The number below 2^32 that the next word spells. Bad: it spells none, or none is left.
    pub fn u32(&mut self) -> Result<u32, LineFault>
        ensures { Gives (λ n. n) result self.new (number_at 32 self.old) }
    {
        let word = self.word()?;
        u32_of(word).ok_or(LineFault::Bad)
    }

    /// The number below 2^64 that the next word spells. Bad: it spells none, or none is left.
    pub fn u64(&mut self) -> Result<u64, LineFault>
        ensures { Gives (λ n. n) result self.new (number_at 64 self.old) }
    {
        let word = self.word()?;
        u64_of(word).ok_or(LineFault::Bad)
    }

    /// Goes past the next word, which is to be this one. Bad: it is another, or none is left.
    pub fn skip(&mut self, name: &[u8]) -> Result<(), LineFault>
        ensures { MatchResult result (λ _. after_word name.now self.old ≡ Some self.new)
            (λ fault. (fault ≡ faults.Bad) × (after_word name.now self.old ≡ None)) }
    {
        let word = self.word()?;
        if word == name {
            Ok(())
        } else {
            Err(LineFault::Bad)
        }
    }

    /// Goes past the next word where it is this one, and says whether it is.
    pub fn try_skip(&mut self, name: &[u8]) -> bool
        ensures { Skips name.now self.old self.new result }
    {
        let Some(rest) = self.rest else {
            return false;
        };
        let (word, after) = split_word(rest);
        if word != name {
            return false;
        }
        self.rest = after;
        true
    }

    /// The byte that the last word spells by two digits. Bad: it spells none, or not one word is left.
    pub fn last_byte(&mut self) -> Result<u8, LineFault>
        ensures { MatchResult result (λ byte. last_byte self.old ≡ Some byte) (λ fault. (fault ≡ faults.Bad) × (last_byte self.old ≡ None)) }
    {
        let word = self.word()?;
        self.end(())?;
        byte_of(word).ok_or(LineFault::Bad)
    }

    /// The value, where no word is left. Bad: one is.
    pub fn end<T: Drop>(&self, value: T) -> Result<T, LineFault>
        ensures { MatchResult result (λ x. at_end value self.now ≡ Some x)
            (λ fault. (fault ≡ faults.Bad) × (at_end value self.now ≡ None)) }
    {
        match self.rest {
            None => Ok(value),
            Some(_) => Err(LineFault::Bad),
        }
    }

    /// The bytes that the last word spells. Bad: it spells none, or not one word is left. NoMemory:
    /// there is no memory for the bytes that it spells.
    pub fn last_bytes(&mut self, alloc: Global) -> Result<Bytes, LineFault>
        ensures { Answers result (last_bytes self.old) }
    {
        let word = self.word()?;
        self.end(())?;
        bytes_of(alloc, word)
    }
}

/// Where the first space of a line is.
fn space_at(line: &[u8]) -> Option<usize>
    ensures { result ≡ position (λ byte. byte == space) line.now }
{
    line.iter().position(|byte| *byte == b' ')
}

/// The first word of a line, and what follows the space behind it, if there is one.
fn split_word(line: &[u8]) -> (&[u8], Option<&[u8]>)
    ensures { words_of line.now ≡ result.0.now ∷ words_left result.1 }
{
    match space_at(line) {
        Some(end) => (&line[..end], Some(&line[end + 1..])),
        None => (line, None),
    }
}

/// The text of a word that may be a numeral: it has neither a sign nor a leading zero.
#[tactic(auto, using(crate::proofs::NumberLemmas::no_text_no_numeral))]
fn plain_text(word: &[u8]) -> Option<&str>
    ensures found { IfSome result (λ text. (text.now ≡ word.now) × (has_leading_zero word.now ≡ false)
        × (slice_index word.now 0 ≢ 43)) }
    ensures none { IfNone result (is_numeral word.now ≡ false) }
{
    match word {
        [b'0', _, ..] => None,
        [b'+', ..] => None,
        _ => str::from_utf8(word).ok(),
    }
}

/// The number below 2^32 that a word, or a part of one, spells.
pub fn u32_of(word: &[u8]) -> Option<u32>
    ensures { result ≡ number_of 32 word.now }
{
    plain_text(word)?.parse::<u32>().ok()
}

/// The number below 2^64 that a word spells.
fn u64_of(word: &[u8]) -> Option<u64>
    ensures { result ≡ number_of 64 word.now }
{
    plain_text(word)?.parse::<u64>().ok()
}

/// Whether each byte is a hexadecimal digit in lower case.
pub fn is_lower_hex(word: &[u8]) -> bool
    ensures { result ≡ list_all is_lower_hex_digit word.now }
{
    word.iter().all(|byte| byte.is_ascii_digit() || (b'a' <= *byte && *byte <= b'f'))
}

/// The bytes of a datagram that a word spells. Bad: it spells none. NoMemory: there is no memory for
/// the bytes that it spells.
fn bytes_of(alloc: Global, word: &[u8]) -> Result<Bytes, LineFault>
    ensures { Answers result (bytes_of word.now) }
{
    if word.len() < 2 || word.len() > 2 * MAX_DATAGRAM_BYTES || !is_lower_hex(word) {
        return Err(LineFault::Bad);
    }
    Ok(Bytes::from(hex::decode(alloc, word)?))
}

/// The byte that a word of two digits spells.
fn byte_of(word: &[u8]) -> Option<u8>
    ensures { result ≡ byte_of word.now }
{
    if word.len() != 2 {
        return None;
    }
    if !is_lower_hex(word) {
        return None;
    }
    let mut byte = [0];
    hex::decode_to_slice(word, &mut byte).unwrap();
    Some(byte[0])
}
