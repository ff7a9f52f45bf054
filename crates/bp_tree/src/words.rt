// The words of a line.
ghost use Rattle.std.specs.Prelude.{◌≡◌, ◌∷◌, [], ◌==◌, ◌↔◌, ℕ, List, false, IsTrue, MatchOption, All};
ghost use Rattle.std.specs.List.{before_first};
ghost use Rattle.std.specs.Str.Lines.{strip_carriage_return};
ghost use Rattle.bp_tree.specs.Lines.{content, is_blank, is_text_byte, words};

/// What counts of a line: it is without a CR at its end, and goes to before the first `#`.
pub fn content(line: &[u8]) -> &[u8]
    ensures { result.now ≡ content line.now }
{
    before_comment(without_return(line))
}

fn without_return(line: &[u8]) -> &[u8]
    ensures { result.now ≡ strip_carriage_return line.now }
{
    match line.last() {
        Some(b'\r') => &line[..line.len() - 1],
        _ => line,
    }
}

fn before_comment(line: &[u8]) -> &[u8]
    ensures { result.now ≡ before_first (λ b. b == 35) line.now }
{
    for (at, byte) in line.iter().enumerate() {
        if *byte == b'#' {
            return &line[..at];
        }
    }
    line
}

/// The first word, and what follows it.
pub fn next_word(bytes: &[u8]) -> Option<(&[u8], &[u8])>
    ensures { MatchOption result (words bytes.now ≡ []) (λ parts. words bytes.now ≡ parts.0.now ∷ words parts.1.now) }
{
    let bytes = without_blanks(bytes);
    if bytes.is_empty() {
        return None;
    }
    for (at, byte) in bytes.iter().enumerate() {
        if is_blank(*byte) {
            return Some((&bytes[..at], &bytes[at..]));
        }
    }
    Some((bytes, &bytes[bytes.len()..]))
}

fn without_blanks(bytes: &[u8]) -> &[u8]
    ensures words { words result.now ≡ words bytes.now }
    ensures first { (b : ℕ) (more : List ℕ) → result.now ≡ b ∷ more → is_blank b ≡ false }
{
    for (at, byte) in bytes.iter().enumerate() {
        if !is_blank(*byte) {
            return &bytes[at..];
        }
    }
    &bytes[bytes.len()..]
}

fn is_blank(byte: u8) -> bool
    ensures { result ≡ is_blank byte }
{
    byte == b' ' || byte == b'\t'
}

/// Whether the bytes are tabs and bytes from 32 to 126.
pub fn is_text(bytes: &[u8]) -> bool
    ensures { IsTrue result ↔ All (λ b. IsTrue (is_text_byte b)) bytes.now }
{
    bytes.iter().all(|byte| is_text_byte(*byte))
}

fn is_text_byte(byte: u8) -> bool
    ensures { result ≡ is_text_byte byte }
{
    byte == b'\t' || (byte >= 32 && byte <= 126)
}
