// A source is read to its end or to a limit, piece by piece.
ghost use Rattle.std.specs.Prelude.{◌≡◌, ◌≤◌, ◌++◌, List, ℕ, length, IfOk, OnErr, OnOk, Err};
ghost use Rattle.bp_base.specs.Causes.{Rose};
ghost use Rattle.bp_base.specs.Reading.{HasRead, HasTakenAll, IsReadTo};

use crate::{Failed, NoMemory, Source};
use std::alloc::Global;

// How many bytes are read at a time.
const PIECE: u64 = 8_192;

/// Why a source was not read.
#[derive(Clone, Copy, Debug, PartialEq, Eq)]
pub enum ReadError {
    Failed,
    NoMemory,
}

/// What takes bytes as they come.
pub trait TakesBytes {
    /// When it may take more.
    ghost is_open: { Self → Type 0 };

    /// What it has become by some bytes.
    ghost takes: { Self → List ℕ → Self → Type 0 };

    /// Whether it may want memory.
    ghost wants_memory: { Type 0 };

    /// Takes the next bytes.
    fn take(&mut self, bytes: &[u8]) -> Result<(), NoMemory>
        requires { is_open self.old }
        ensures still { OnOk result (is_open self.new) }
        ensures takes { OnOk result (takes self.old bytes.now self.new) }
        ensures memory { OnErr result wants_memory };
}

/// Gives all bytes of a source, or the first `most`, to what takes them, and says how many came.
pub fn read_into<S: Source, I: TakesBytes>(
    source: &mut S,
    intake: &mut I,
    most: u64,
) -> Result<u64, ReadError>
    requires { I.is_open intake.old }
    ensures still { OnOk result (I.is_open intake.new) }
    ensures taken { IfOk result (λ count. HasTakenAll I.takes most intake.old intake.new (S.left source.old) (S.left source.new) count) }
    ensures later { S.faults source.old ≤ S.faults source.new }
    ensures failed { result ≡ Err ReadError.Failed → Rose (S.faults source.old) (S.faults source.new) }
    ensures memory { result ≡ Err ReadError.NoMemory → I.wants_memory }
{
    let mut buffer = [0u8; PIECE as usize];
    let mut count = 0;
    for _ in 0..most {
        let room = (most - count).min(PIECE) as usize;
        if room == 0 {
            return Ok(count);
        }
        let piece = &mut buffer[..room];
        let k = match source.read(piece) {
            Ok(k) => k,
            Err(Failed) => return Err(ReadError::Failed),
        };
        if k == 0 {
            return Ok(count);
        }
        match intake.take(&piece[..k as usize]) {
            Ok(()) => count += k,
            Err(NoMemory) => return Err(ReadError::NoMemory),
        }
    }
    Ok(count)
}

// The bytes that came so far.
#[derive(Drop)]
struct Collected {
    bytes: Vec<u8>,
}

impl TakesBytes for Collected {
    ghost is_open = { λ c. Unit {0} };

    ghost takes = { λ c b d. d.bytes.items ≡ c.bytes.items ++ b };

    ghost wants_memory = { Unit {0} };

    fn take(&mut self, bytes: &[u8]) -> Result<(), NoMemory> {
        self.bytes.extend_from_slice(bytes)?;
        Ok(())
    }
}

/// All bytes of a source, or the first `most`.
pub fn read_whole<S: Source>(alloc: Global, source: &mut S, most: u64) -> Result<Vec<u8>, ReadError>
    ensures bytes { IfOk result (λ v. IsReadTo most (S.left source.old) (S.left source.new) v.items) }
    ensures later { S.faults source.old ≤ S.faults source.new }
    ensures failed { result ≡ Err ReadError.Failed → Rose (S.faults source.old) (S.faults source.new) }
{
    let mut collected = Collected {
        bytes: Vec::new(alloc),
    };
    read_into(source, &mut collected, most)?;
    Ok(collected.bytes)
}
