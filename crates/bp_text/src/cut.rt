ghost use Rattle.std.specs.Prelude.{◌≡◌, ◌<◌, ◌≤◌, length, MatchOption};
ghost use Rattle.bp_text.specs.Lines.{IsLineAt};

use bp_base::Line;

/// The line that begins at a place, in bytes from 0 on. It ends before the first LF from there on, or with the bytes.
/// None exactly where the place is the length.
pub fn line(bytes: &[u8], at: u64) -> Option<Line>
    requires { at ≤ length bytes.now }
    ensures { MatchOption result (at ≡ length bytes.now) (λ l. IsLineAt bytes.now at l) }
{
    let length = bytes.len() as u64;
    if at == length {
        return None;
    }
    for to in at..length {
        if bytes[to as usize] == b'\n' {
            return Some(Line {
                from: at,
                to,
                next: to + 1,
                ended: true,
            });
        }
    }
    Some(Line {
        from: at,
        to: length,
        next: length,
        ended: false,
    })
}
