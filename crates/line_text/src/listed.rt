//! Reading the lines of a listing, which a transcript has as they stand.
ghost use Rattle.std.specs.Prelude.{◌≡◌, ◌↔◌, ◌≤◌, true, false, Some, None, MatchResult};
ghost use Rattle.std.specs.List.{list_all};
ghost use Rattle.line_words.specs.Words.{words_of, is_lower_hex_digit};
ghost use Rattle.line_words.specs.Reading.{AnswersBad};
ghost use Rattle.line_words.specs.declared.line_fault.LineFault.TheVariants as faults;
ghost use Rattle.line_text.specs.Listed.{listed_of, file_of, name_of, data_of, times_of, is_kind, is_mode, is_hex, is_octal_digit, passing};

use crate::names;
use line_words::{LineFault, Words, is_lower_hex};

/// The digits of the mode of a file.
const MODE_DIGITS: usize = 4;

/// The most bytes of a name.
const NAME_BYTES: usize = 255;

/// The bytes of a block.
const BLOCK_BYTES: usize = 4_096;

/// Whether a text is a line of a listing.
pub fn is_listed(text: &[u8]) -> bool
    ensures { (result ≡ true) ↔ (listed_of (words_of text.now) ≡ Some tt) }
{
    listed_of(&mut Words::new(text)).is_ok()
}

#[tactic(auto, unfolding(crate::specs::Listed::listed_of))]
fn listed_of(words: &mut Words<'_>) -> Result<(), LineFault>
    ensures { AnswersBad result (listed_of words.old) }
{
    let name = words.word()?;
    if name == names::FILE {
        file_of(words)
    } else if name == names::NAME {
        name_of(words)
    } else if name == names::DATA {
        data_of(words)
    } else {
        Err(LineFault::Bad)
    }
}

#[tactic(auto, unfolding(crate::specs::Listed::file_of))]
fn file_of(words: &mut Words<'_>) -> Result<(), LineFault>
    ensures { AnswersBad result (file_of words.old) }
{
    words.u32()?;
    words.u32()?;
    skip_kind(words)?;
    skip_mode(words)?;
    words.u32()?;
    words.u32()?;
    words.u32()?;
    words.u32()?;
    words.u64()?;
    times_of(words)
}

#[tactic(auto, unfolding(crate::specs::Listed::times_of))]
fn times_of(words: &mut Words<'_>) -> Result<(), LineFault>
    ensures { AnswersBad result (times_of words.old) }
{
    words.u32()?;
    words.u32()?;
    words.u32()?;
    words.u32()?;
    words.u32()?;
    words.u32()?;
    words.end(())
}

#[tactic(auto, unfolding(crate::specs::Listed::name_of))]
fn name_of(words: &mut Words<'_>) -> Result<(), LineFault>
    ensures { AnswersBad result (name_of words.old) }
{
    words.u32()?;
    words.u32()?;
    skip_hex(words, 1, NAME_BYTES)?;
    words.u32()?;
    words.end(())
}

#[tactic(auto, unfolding(crate::specs::Listed::data_of))]
fn data_of(words: &mut Words<'_>) -> Result<(), LineFault>
    ensures { AnswersBad result (data_of words.old) }
{
    words.u32()?;
    words.u32()?;
    skip_hex(words, BLOCK_BYTES, BLOCK_BYTES)?;
    words.end(())
}

// Goes past the kind of a file.
fn skip_kind(words: &mut Words<'_>) -> Result<(), LineFault>
    ensures { MatchResult result (λ _. passing is_kind words.old ≡ Some words.new) (λ fault. (fault ≡ faults.Bad) × (passing is_kind words.old ≡ None)) }
{
    let word = words.word()?;
    check(is_kind(word))
}

// Goes past the mode of a file.
fn skip_mode(words: &mut Words<'_>) -> Result<(), LineFault>
    ensures { MatchResult result (λ _. passing is_mode words.old ≡ Some words.new) (λ fault. (fault ≡ faults.Bad) × (passing is_mode words.old ≡ None)) }
{
    let word = words.word()?;
    check(is_mode(word))
}

// Goes past at least so many bytes and at most so many, of two digits each.
fn skip_hex(words: &mut Words<'_>, least: usize, most: usize) -> Result<(), LineFault>
    requires least { least ≤ 4096 }
    requires most { most ≤ 4096 }
    ensures { MatchResult result (λ _. passing (is_hex least most) words.old ≡ Some words.new) (λ fault. (fault ≡ faults.Bad) × (passing (is_hex least most) words.old ≡ None)) }
{
    let word = words.word()?;
    check(is_hex(word, least, most))
}

fn check(passes: bool) -> Result<(), LineFault>
    ensures { MatchResult result (λ _. passes ≡ true) (λ fault. (fault ≡ faults.Bad) × (passes ≡ false)) }
{
    if passes { Ok(()) } else { Err(LineFault::Bad) }
}

fn is_kind(word: &[u8]) -> bool
    ensures { result ≡ is_kind word.now }
{
    word == names::REG || word == names::DIR || word == names::LNK
}

fn is_mode(word: &[u8]) -> bool
    ensures { result ≡ is_mode word.now }
{
    word.len() == MODE_DIGITS && is_octal(word)
}

// Whether each byte is an octal digit.
fn is_octal(word: &[u8]) -> bool
    ensures { result ≡ list_all is_octal_digit word.now }
{
    word.iter().all(|digit| b'0' <= *digit && *digit <= b'7')
}

fn is_hex(word: &[u8], least: usize, most: usize) -> bool
    requires least { least ≤ 4096 }
    requires most { most ≤ 4096 }
    ensures { result ≡ is_hex least most word.now }
{
    2 * least <= word.len() && word.len() <= 2 * most && word.len() % 2 == 0 && is_lower_hex(word)
}
