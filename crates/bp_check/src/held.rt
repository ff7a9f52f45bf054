// The line of a document that is being read, as far as it is held.
ghost use Rattle.std.specs.Prelude.{◌≡◌, ◌++◌, [], List, ℕ, take};
ghost use Rattle.bp_check.specs.Held.{most_held};

use bp_document::MOST_LINE;
use std::marker::Model;

// One byte more than the longest line of any form, so that a longer line is seen to be one.
const MOST_HELD: usize = MOST_LINE as usize + 1;

/// The first bytes of a line. Contracts see them as a list.
#[derive(Drop)]
pub struct HeldLine {
    bytes: [u8; MOST_HELD],
    len: usize,
}

impl Model for HeldLine {
    ghost use Rattle.std.specs.Prelude.{◌≡◌, ◌≤◌, List, ℕ, take, length};
    ghost use Rattle.bp_check.specs.Held.{most_held};

    ghost Value = { List ℕ };

    ghost view = { λ l. take l.len l.bytes };

    ghost invariant = { λ l. (l.len ≤ most_held) × (length l.bytes ≡ most_held) };
}

impl HeldLine {
    /// The line before its first byte.
    pub fn empty() -> HeldLine
        ensures { result ≡ [] }
    {
        HeldLine {
            bytes: [0; MOST_HELD],
            len: 0,
        }
    }

    /// The next bytes of the line, which are held where there is room.
    pub fn extend(&mut self, part: &[u8])
        ensures { (line : List ℕ) → self.old ≡ take most_held line → self.new ≡ take most_held (line ++ part.now) }
    {
        let count = part.len().min(MOST_HELD - self.len);
        let end = self.len + count;
        self.bytes[self.len..end].copy_from_slice(&part[..count]);
        self.len = end;
    }

    pub fn clear(&mut self)
        ensures { self.new ≡ [] }
    {
        self.len = 0;
    }

    pub fn as_slice(&self) -> &[u8]
        ensures { result.now ≡ self.now }
    {
        &self.bytes[..self.len]
    }
}
