ghost use Rattle.std.specs.Prelude.{◌≡◌, ◌≤◌, ◌<◌, ◌+◌, ◌-◌, ◌↔◌, min, Some, drop, length, IfOk, OnErr, OnOk, IsErr};
ghost use Rattle.std.specs.List.{Contains};
ghost use Rattle.bp_base.specs.Causes.{HasCause, Reads, EndsAt, count_after};

use crate::calls::{count_after, is_listed};
use crate::{Failed, Source};

/// Bytes in memory, at most `most` a call, of which the calls fail whose numbers, counted from 1, stand in `fails`.
#[derive(Drop)]
pub struct MemSource {
    pub bytes: Vec<u8>,
    pub at: u64,
    pub most: u64,
    pub calls: u64,
    pub fails: Vec<u64>,
    pub faults: u64,
    ghost some: { 1 ≤ most },
    ghost within: { at ≤ length bytes.items },
}

impl Source for MemSource {
    ghost left = { λ s. Some (drop s.at s.bytes.items) };

    ghost faults = { λ s. s.faults };

    fn read(&mut self, buffer: &mut [u8]) -> Result<u64, Failed>
        requires { 0 < length buffer.old }
        ensures within { IfOk result (λ k. k ≤ length buffer.old) }
        ensures bytes { IfOk result (λ k. Reads (Some (drop self.old.at self.old.bytes.items)) (Some (drop self.new.at self.new.bytes.items)) k buffer.new) }
        ensures end { IfOk result (λ k. EndsAt (Some (drop self.old.at self.old.bytes.items)) k) }
        ensures kept { OnErr result (drop self.new.at self.new.bytes.items ≡ drop self.old.at self.old.bytes.items) }
        ensures cause { HasCause self.old.faults self.new.faults result }

        // It fails exactly where the call's number is listed, and else takes as much as it can.
        ensures fails { IsErr result ↔ Contains self.old.fails.items (count_after self.old.calls) }
        ensures most { IfOk result (λ k. k ≡ min (min (length self.old.bytes.items - self.old.at) (length buffer.old)) self.old.most) }

        // What stands after it.
        ensures calls { self.new.calls ≡ count_after self.old.calls }
        ensures quiet { OnOk result (self.new.faults ≡ self.old.faults) }
        ensures counted { OnErr result (self.new.faults ≡ count_after self.old.faults) }
        ensures moved { IfOk result (λ k. self.new.at ≡ self.old.at + k) }
        ensures stayed { OnErr result (self.new.at ≡ self.old.at) }
        ensures same { (self.new.bytes ≡ self.old.bytes) × (self.new.most ≡ self.old.most) × (self.new.fails ≡ self.old.fails) }
    {
        self.calls = count_after(self.calls);
        if is_listed(&self.fails, self.calls) {
            self.faults = count_after(self.faults);
            return Err(Failed);
        }
        let left = &self.bytes[self.at as usize..];
        let count = (left.len() as u64).min(buffer.len() as u64).min(self.most) as usize;
        buffer[..count].copy_from_slice(&left[..count]);
        self.at += count as u64;
        Ok(count as u64)
    }
}

/// Bytes in memory, of which a read never fails.
#[derive(Drop)]
pub struct QuietSource {
    pub bytes: Vec<u8>,
    pub at: u64,
    ghost within: { at ≤ length bytes.items },
}

impl Source for QuietSource {
    ghost left = { λ s. Some (drop s.at s.bytes.items) };

    ghost faults = { λ _. 0 };

    fn read(&mut self, buffer: &mut [u8]) -> Result<u64, Failed>
        requires { 0 < length buffer.old }
        ensures within { IfOk result (λ k. k ≤ length buffer.old) }
        ensures bytes { IfOk result (λ k. Reads (Some (drop self.old.at self.old.bytes.items)) (Some (drop self.new.at self.new.bytes.items)) k buffer.new) }
        ensures end { IfOk result (λ k. EndsAt (Some (drop self.old.at self.old.bytes.items)) k) }
        ensures value { result ≡ Ok (min (length self.old.bytes.items - self.old.at) (length buffer.old)) }
        ensures moved { IfOk result (λ k. self.new.at ≡ self.old.at + k) }
        ensures same { self.new.bytes ≡ self.old.bytes }
    {
        let left = &self.bytes[self.at as usize..];
        let count = left.len().min(buffer.len());
        buffer[..count].copy_from_slice(&left[..count]);
        self.at += count as u64;
        Ok(count as u64)
    }
}
