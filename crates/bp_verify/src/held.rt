// The line of a certificate that is being read, as far as it is held.
ghost use Rattle.std.specs.Prelude.{◌≡◌, ◌++◌, [], List, ℕ, OnOk, take};
ghost use Rattle.bp_verify.specs.Held.{most_held};

use bp_base::NoMemory;
use bp_certificate::MOST_LINE_BYTES;
use std::alloc::Global;
use std::marker::Model;

// One byte more than the longest line of any form, so that a longer line is seen to be one.
const MOST_HELD: usize = MOST_LINE_BYTES as usize + 1;

/// The first bytes of a line. Contracts see them as a list.
#[derive(Drop)]
pub struct HeldLine {
    bytes: Vec<u8>,
}

impl Model for HeldLine {
    ghost use Rattle.std.specs.Prelude.{◌≤◌, List, ℕ, length};
    ghost use Rattle.bp_verify.specs.Held.{most_held};

    ghost Value = { List ℕ };

    ghost view = { λ l. l.bytes.items };

    ghost invariant = { λ l. length l.bytes.items ≤ most_held };
}

impl HeldLine {
    /// The line before its first byte.
    pub fn empty(alloc: Global) -> HeldLine
        ensures { result ≡ [] }
    {
        HeldLine {
            bytes: Vec::new(alloc),
        }
    }

    /// The next bytes of the line, which are held where there is room.
    pub fn extend(&mut self, part: &[u8]) -> Result<(), NoMemory>
        ensures { OnOk result ((line : List ℕ) → self.old ≡ take most_held line → self.new ≡ take most_held (line ++ part.now)) }
    {
        let count = part.len().min(MOST_HELD - self.bytes.len());
        self.bytes.extend_from_slice(&part[..count])?;
        Ok(())
    }

    pub fn clear(&mut self)
        ensures { self.new ≡ [] }
    {
        self.bytes.clear();
    }

    pub fn as_slice(&self) -> &[u8]
        ensures { result.now ≡ self.now }
    {
        self.bytes.as_slice()
    }
}
