ghost use Rattle.std.specs.Prelude.{◌≡◌, ◌≢◌, ◌*◌, length, IfSome, IfNone};
ghost use Rattle.fs_layout.specs.Words.{AreWords, spelled};

/// The bytes of a word: a number below 2^32, its highest byte first.
pub const WORD_BYTES: usize = 4;

/// The words that bytes spell. None exactly where the bytes are not `N` words long.
pub fn read_words<const N: usize>(bytes: &[u8]) -> Option<[u32; N]>
    ensures found { IfSome result (λ words. AreWords words × (bytes.now ≡ spelled words)) }
    ensures none { IfNone result (length bytes.now ≢ 4 * N) }
{
    if bytes.len() % WORD_BYTES != 0 || bytes.len() / WORD_BYTES != N {
        return None;
    }
    let mut words = [0; N];
    for (index, word) in words.iter_mut().enumerate() {
        let at = WORD_BYTES * index;
        *word = u32::from_be_bytes([bytes[at], bytes[at + 1], bytes[at + 2], bytes[at + 3]]);
    }
    Some(words)
}

/// Spells words into bytes, of which there are four for each word.
pub fn write_words(words: &[u32], into: &mut [u8])
    requires { length into.old ≡ 4 * length words.now }
    ensures { into.new ≡ spelled words.now }
{
    for (index, word) in words.iter().enumerate() {
        let at = WORD_BYTES * index;
        into[at..at + WORD_BYTES].copy_from_slice(&word.to_be_bytes());
    }
}
