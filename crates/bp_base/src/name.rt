ghost use Rattle.std.specs.Prelude.{◌≡◌, ◌↔◌, IsTrue, All};
ghost use Rattle.bp_base.specs.Name.{IsName, NamesExactly, is_name_byte};

use std::marker::Model;

/// A node's name: 1 to 32 bytes, each a letter, a digit, `_` or `-`. The bytes behind the name are 0.
#[derive(Clone, Copy, PartialEq, Eq)]
pub struct Name {
    bytes: [u8; 32],
    len: usize,
}

impl Model for Name {
    ghost use Rattle.std.specs.Prelude.{◌≡◌, ◌≤◌, ◌-◌, ◌++◌, List, ℕ, take, drop, length, replicate};
    ghost use Rattle.bp_base.specs.Name.{IsName};
    ghost use Rattle.bp_base.specs.Padded.{unpadded};

    ghost Value = { List ℕ };

    ghost view = { λ n. take n.len n.bytes };

    ghost invariant = { λ n. (n.len ≤ 32) × (length n.bytes ≡ 32) × (drop n.len n.bytes ≡ replicate (32 - n.len) 0) × IsName (take n.len n.bytes) };

    ghost inverse = { λ v. record { bytes = v ++ replicate (32 - length v) 0; len = length v } };

    ghost inverse_ok = { λ a h. let p = unpadded a.bytes a.len h.0 h.1 h.2 in λ i. record { bytes = p.0 i; len = p.1 i } };
}

impl Name {
    /// The name of these bytes. None exactly where they are no name.
    pub fn new(bytes: &[u8]) -> Option<Name>
        ensures { NamesExactly bytes.now result }
    {
        if bytes.is_empty() || bytes.len() > 32 || !are_name_bytes(bytes) {
            return None;
        }
        let mut padded = [0u8; 32];
        padded[..bytes.len()].copy_from_slice(bytes);
        Some(Name {
            bytes: padded,
            len: bytes.len(),
        })
    }

    pub fn bytes(&self) -> &[u8]
        ensures value { result.now ≡ self.now }
        ensures name { IsName self.now }
    {
        &self.bytes[..self.len]
    }
}

fn are_name_bytes(bytes: &[u8]) -> bool
    ensures { IsTrue result ↔ All (λ b. IsTrue (is_name_byte b)) bytes.now }
{
    bytes.iter().all(|byte| is_name_byte(*byte))
}

fn is_name_byte(byte: u8) -> bool
    ensures { result ≡ is_name_byte byte }
{
    byte.is_ascii_lowercase()
        || byte.is_ascii_uppercase()
        || byte.is_ascii_digit()
        || byte == b'_'
        || byte == b'-'
}
