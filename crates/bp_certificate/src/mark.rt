// Words cut before their first sign or dash.
ghost use Rattle.std.specs.Prelude.{◌≡◌};
ghost use Rattle.bp_certificate.specs.Words.{IsCut, is_marked, is_sign};

/// Before which bytes a word is cut: those of a sign, all others, or a dash.
#[derive(Clone, Copy)]
pub enum Mark {
    Sign,
    Other,
    Dash,
}

/// The bytes before the first one that is marked, and the others.
pub fn cut_before(mark: Mark, bytes: &[u8]) -> (&[u8], &[u8])
    ensures { IsCut mark bytes.now result.0.now result.1.now }
{
    for (at, byte) in bytes.iter().enumerate() {
        if is_marked(mark, *byte) {
            return (&bytes[..at], &bytes[at..]);
        }
    }
    (bytes, &bytes[bytes.len()..])
}

fn is_marked(mark: Mark, byte: u8) -> bool
    ensures { result ≡ is_marked mark byte }
{
    match mark {
        Mark::Sign => is_sign(byte),
        Mark::Other => !is_sign(byte),
        Mark::Dash => byte == b'-',
    }
}

fn is_sign(byte: u8) -> bool
    ensures { result ≡ is_sign byte }
{
    byte == b'<' || byte == b'=' || byte == b'>'
}
