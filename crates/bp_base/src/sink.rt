ghost use Rattle.std.specs.Prelude.{◌≡◌, ◌≤◌, ◌<◌, ◌+◌, ◌-◌, ◌^◌, ◌↔◌, ◌⊎◌, min, Some, None, IfOk, OnOk, OnErr, IsErr, [], take, length, vec_capacity};
ghost use Rattle.std.specs.List.{Contains};
ghost use Rattle.bp_base.specs.Causes.{HasCause, Appends, count_after};

use crate::calls::{count_after, is_listed};
use crate::{Failed, NoMemory, Sink};
use std::alloc::Global;

/// Room for bytes in memory, at most `most` a call and `room` in all, of which the calls fail whose numbers, counted from 1, stand in `fails`.
/// The room is reserved, so that a write takes no memory.
#[derive(Drop)]
pub struct MemSink {
    pub bytes: Vec<u8>,
    pub room: u64,
    pub most: u64,
    pub calls: u64,
    pub fails: Vec<u64>,
    pub faults: u64,
    ghost some: { 1 ≤ most },
    ghost reserved: { room ≤ vec_capacity bytes },
}

impl MemSink {
    /// Reserves the room, so that a write takes no memory.
    pub fn new(alloc: Global, room: u64, most: u64, fails: Vec<u64>) -> Result<MemSink, NoMemory>
        requires { 1 ≤ most }
        ensures empty { IfOk result (λ s. s.bytes.items ≡ []) }
        ensures limits { IfOk result (λ s. (s.room ≡ room) × (s.most ≡ most) × (s.calls ≡ 0) × (s.fails ≡ fails) × (s.faults ≡ 0)) }
    {
        let Ok(capacity) = usize::try_from(room) else {
            return Err(NoMemory);
        };
        let bytes = Vec::with_capacity(alloc, capacity)?;
        Ok(MemSink {
            bytes,
            room,
            most,
            calls: 0,
            fails,
            faults: 0,
        })
    }
}

impl Sink for MemSink {
    ghost held = { λ s. Some s.bytes.items };

    ghost faults = { λ s. s.faults };

    fn write(&mut self, piece: &[u8]) -> Result<u64, Failed>
        requires { 0 < length piece.now }
        ensures some { IfOk result (λ k. 1 ≤ k) }
        ensures within { IfOk result (λ k. k ≤ length piece.now) }
        ensures bytes { IfOk result (λ k. Appends (Some self.old.bytes.items) (Some self.new.bytes.items) (take k piece.now)) }
        ensures kept { OnErr result (self.new.bytes.items ≡ self.old.bytes.items) }
        ensures cause { HasCause self.old.faults self.new.faults result }

        // It fails exactly where the call's number is listed or no room is left, and else takes as much as it can.
        ensures fails { IsErr result ↔ (Contains self.old.fails.items (count_after self.old.calls) ⊎ (self.old.room ≤ length self.old.bytes.items)) }
        ensures most { IfOk result (λ k. k ≡ min (min (length piece.now) (self.old.room - length self.old.bytes.items)) self.old.most) }

        // What stands after it.
        ensures calls { self.new.calls ≡ count_after self.old.calls }
        ensures quiet { OnOk result (self.new.faults ≡ self.old.faults) }
        ensures counted { OnErr result (self.new.faults ≡ count_after self.old.faults) }
        ensures same { (self.new.room ≡ self.old.room) × (self.new.most ≡ self.old.most) × (self.new.fails ≡ self.old.fails) }
    {
        self.calls = count_after(self.calls);
        let room = self.room.saturating_sub(self.bytes.len() as u64);
        if room == 0 || is_listed(&self.fails, self.calls) {
            self.faults = count_after(self.faults);
            return Err(Failed);
        }
        let count = (piece.len() as u64).min(room).min(self.most) as usize;
        if self.bytes.extend_from_slice(&piece[..count]).is_err() {
            unreachable!();
        }
        Ok(count as u64)
    }
}

/// Counts the bytes that are written, up to the end of its type.
#[derive(Clone, Copy, Debug)]
pub struct CountSink {
    pub length: u64,
}

impl Sink for CountSink {
    ghost held = { λ _. None };

    ghost faults = { λ _. 0 };

    fn write(&mut self, piece: &[u8]) -> Result<u64, Failed>
        requires { 0 < length piece.now }
        ensures some { IfOk result (λ k. 1 ≤ k) }
        ensures within { IfOk result (λ k. k ≤ length piece.now) }
        ensures value { result ≡ Ok (length piece.now) }
        ensures counted { self.new.length ≡ min (self.old.length + length piece.now) (2 ^ 64 - 1) }
    {
        self.length = self.length.saturating_add(piece.len() as u64);
        Ok(piece.len() as u64)
    }
}
