ghost use Rattle.std.specs.Prelude.{◌≡◌, ◌<◌, ◌≤◌, List, ℕ, length, take, IfOk, OnErr};
ghost use Rattle.std.specs.declared.option.Option.{Option};
ghost use Rattle.bp_base.specs.Causes.{HasCause, Reads, EndsAt, Appends};

/// A read or a write that the outside refused.
#[derive(Clone, Copy, Debug, PartialEq, Eq)]
pub struct Failed;

/// Bytes that come from outside.
pub trait Source {
    /// The bytes that are left to read, where they are told.
    ghost left: { Self → Option (List ℕ) };

    /// How often a read has failed. It never falls, and stands still at the end of its type.
    ghost faults: { Self → ℕ };

    /// Reads up to the buffer's length. Ok(0) is the end of input.
    fn read(&mut self, buffer: &mut [u8]) -> Result<u64, Failed>
        requires { 0 < length buffer.old }
        ensures within { IfOk result (λ k. k ≤ length buffer.old) }
        ensures bytes { IfOk result (λ k. Reads (left self.old) (left self.new) k buffer.new) }
        ensures end { IfOk result (λ k. EndsAt (left self.old) k) }
        ensures kept { OnErr result (left self.new ≡ left self.old) }
        ensures cause { HasCause (faults self.old) (faults self.new) result };
}

/// Bytes that go outside.
pub trait Sink {
    /// The bytes that were written, where they are told.
    ghost held: { Self → Option (List ℕ) };

    /// How often a write has failed. It never falls, and stands still at the end of its type.
    ghost faults: { Self → ℕ };

    /// Writes at least the first byte of the piece. After `Failed` nothing was appended.
    fn write(&mut self, piece: &[u8]) -> Result<u64, Failed>
        requires { 0 < length piece.now }
        ensures some { IfOk result (λ k. 1 ≤ k) }
        ensures within { IfOk result (λ k. k ≤ length piece.now) }
        ensures bytes { IfOk result (λ k. Appends (held self.old) (held self.new) (take k piece.now)) }
        ensures kept { OnErr result (held self.new ≡ held self.old) }
        ensures cause { HasCause (faults self.old) (faults self.new) result };
}

/// What a worker passes before each task that it takes. It changes no answer.
pub trait Gate {
    /// `hand` is the worker's number, and `records` how many records it has made.
    fn pass(&self, hand: u64, records: u64);
}

/// A gate that is always open.
#[derive(Clone, Copy, Debug)]
pub struct OpenGate;

impl Gate for OpenGate {
    fn pass(&self, hand: u64, records: u64) {
        let _ = (hand, records);
    }
}

/// Who moves next among hands that take turns.
pub trait Schedule {
    /// What a turn among so many live hands leads to, by its answer: the state before, the count, the answer and the state after.
    ghost turns: { Self → ℕ → ℕ → Self → Type 0 };

    /// Which live hand moves next, counted from 0 in rising order.
    fn turn(&mut self, live: u64) -> u64
        requires { 1 ≤ live }
        ensures below { result < live }
        ensures turns { turns self.old live result self.new };
}
