ghost use Rattle.std.specs.Prelude.{◌≡◌, decimal};
ghost use Rattle.std.specs.List.{flat_map};
ghost use Rattle.bp_base.specs.Causes.{HasCause};
ghost use Rattle.bp_text.specs.Puts.{Puts};

use bp_base::{Failed, Sink};
use itoa::Buffer;

/// Writes all bytes. After `Failed` a prefix of them was appended.
pub fn put<K: Sink>(sink: &mut K, bytes: &[u8]) -> Result<(), Failed>
    ensures text { Puts (K.held sink.old) (K.held sink.new) result bytes.now }
    ensures cause { HasCause (K.faults sink.old) (K.faults sink.new) result }
{
    let mut at = 0;
    while at < bytes.len() {
        let count = sink.write(&bytes[at..])?;
        at += count as usize;
    }
    Ok(())
}

/// Writes the parts, one after another. After `Failed` a prefix of the text was appended.
pub fn put_parts<K: Sink>(sink: &mut K, parts: &[&[u8]]) -> Result<(), Failed>
    ensures text { Puts (K.held sink.old) (K.held sink.new) result (flat_map (λ part. part.now) parts.now) }
    ensures cause { HasCause (K.faults sink.old) (K.faults sink.new) result }
{
    for part in parts {
        put(sink, part)?;
    }
    Ok(())
}

/// Writes the number in decimal. After `Failed` a prefix of the digits was appended.
pub fn put_number<K: Sink>(sink: &mut K, value: u64) -> Result<(), Failed>
    ensures text { Puts (K.held sink.old) (K.held sink.new) result (decimal value) }
    ensures cause { HasCause (K.faults sink.old) (K.faults sink.new) result }
{
    let mut digits = Digits::new();
    put(sink, digits.of(value))
}

/// Room for the digits of a number, as a part of a line.
#[derive(Drop)]
pub struct Digits {
    buffer: Buffer,
}

impl Digits {
    pub fn new() -> Digits {
        Digits {
            buffer: Buffer::new(),
        }
    }

    /// The number in decimal.
    pub fn of(&mut self, value: u64) -> &[u8]
        ensures { result.now ≡ decimal value }
    {
        self.buffer.format(value).as_bytes()
    }
}
