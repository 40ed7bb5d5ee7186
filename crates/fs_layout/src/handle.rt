ghost use Rattle.std.specs.Prelude.{◌≡◌, ℕ, IfSome};
ghost use Rattle.fs_layout.specs.Handles.{SpellsHandle, handle_words};

use crate::words::{WORD_BYTES, read_words, write_words};

/// The words of a handle.
const HANDLE_WORDS: usize = 8;

/// The bytes of a handle (RFC 1094, section 2.3.3).
pub const HANDLE_BYTES: usize = WORD_BYTES * HANDLE_WORDS;

/// The first word of each handle: "SFS1".
const MARK: u32 = 0x5346_5331;

/// The number and the generation of the file whose handle these bytes are (`docs/FORMATS.md`, "Handles").
/// None exactly where they are no handle.
pub fn read_handle(bytes: &[u8]) -> Option<(u32, u32)>
    ensures found { IfSome result (λ file. SpellsHandle file.0 file.1 bytes.now) }
    ensures only { (number generation : ℕ) → SpellsHandle number generation bytes.now → result ≡ Some (number, generation) }
{
    file_of(read_words(bytes)?)
}

/// The handle of the file with this number and generation.
pub fn write_handle(number: u32, generation: u32) -> [u8; HANDLE_BYTES]
    ensures { SpellsHandle number generation result }
{
    let mut handle = [0; HANDLE_BYTES];
    write_words(&words_of(number, generation), &mut handle);
    handle
}

// The number and the generation in a handle with these words.
#[tactic(auto, unfolding(crate::specs::Handles::handle_words))]
fn file_of(words: [u32; HANDLE_WORDS]) -> Option<(u32, u32)>
    ensures found { IfSome result (λ file. words ≡ handle_words file.0 file.1) }
    ensures only { (number generation : ℕ) → words ≡ handle_words number generation → result ≡ Some (number, generation) }
{
    let [_, number, generation, ..] = words;
    if words == words_of(number, generation) {
        Some((number, generation))
    } else {
        None
    }
}

// The words of a handle.
#[tactic(auto, unfolding(crate::specs::Handles::handle_words))]
fn words_of(number: u32, generation: u32) -> [u32; HANDLE_WORDS]
    ensures { result ≡ handle_words number generation }
{
    [MARK, number, generation, 0, 0, 0, 0, 0]
}
