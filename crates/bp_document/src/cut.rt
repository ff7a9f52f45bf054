// The words of a line, which single spaces part.
ghost use Rattle.std.specs.Prelude.{◌≡◌, ◌∷◌, [], MatchOption};
ghost use Rattle.bp_document.specs.Words.{words, words_behind};

/// The first word, and what follows it from its space on.
pub fn split_word(bytes: &[u8]) -> (&[u8], &[u8])
    ensures { words bytes.now ≡ result.0.now ∷ words_behind result.1.now }
{
    for (at, byte) in bytes.iter().enumerate() {
        if *byte == b' ' {
            return (&bytes[..at], &bytes[at..]);
        }
    }
    (bytes, &bytes[bytes.len()..])
}

/// The word behind the first space, and what follows it.
pub fn next_word(bytes: &[u8]) -> Option<(&[u8], &[u8])>
    ensures { MatchOption result (words_behind bytes.now ≡ []) (λ parts. words_behind bytes.now ≡ parts.0.now ∷ words_behind parts.1.now) }
{
    for (at, byte) in bytes.iter().enumerate() {
        if *byte == b' ' {
            return Some(split_word(&bytes[at + 1..]));
        }
    }
    None
}
