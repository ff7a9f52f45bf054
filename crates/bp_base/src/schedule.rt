ghost use Rattle.std.specs.Prelude.{◌≡◌, ◌<◌, ◌≤◌, ◌^◌, ℕ, List, drop, length};
ghost use Rattle.bp_base.specs.Turns.{ListTurns, SeedTurns};

use crate::{Schedule, draw};

/// A schedule of these numbers, from the place `at` on. Each answer is the next number modulo the count of live hands, or 0 at the
/// list's end.
#[derive(Drop)]
pub struct ListSchedule {
    pub numbers: Vec<u64>,
    pub at: u64,
}

impl Schedule for ListSchedule {
    ghost turns = { λ before live answer after. ListTurns (drop before.at before.numbers.items) live answer (drop after.at after.numbers.items) };

    fn turn(&mut self, live: u64) -> u64
        requires { 1 ≤ live }
        ensures below { result < live }
        ensures turns { ListTurns (drop self.old.at self.old.numbers.items) live result (drop self.new.at self.new.numbers.items) }
        ensures same { self.new.numbers ≡ self.old.numbers }
    {
        if self.at >= self.numbers.len() as u64 {
            return 0;
        }
        let number = self.numbers[self.at as usize];
        self.at += 1;
        number % live
    }
}

/// A schedule of the generator's draws. Each answer is the next draw modulo the count of live hands.
#[derive(Drop)]
pub struct SeedSchedule {
    pub state: u64,
    ghost small: { state < 2 ^ 32 },
}

impl Schedule for SeedSchedule {
    ghost turns = { λ before live answer after. SeedTurns before.state live answer after.state };

    fn turn(&mut self, live: u64) -> u64
        requires { 1 ≤ live }
        ensures below { result < live }
        ensures turns { SeedTurns self.old.state live result self.new.state }
    {
        draw(&mut self.state) % live
    }
}

/// The turn of a schedule in memory has one answer, and what stands after it is one.
pub fn law_of_turns()
    ensures listed { (left : List ℕ) (live a b : ℕ) (after then_after : List ℕ) → ListTurns left live a after → ListTurns left live b then_after → (a ≡ b) × (after ≡ then_after) }
    ensures drawn { (state live a b after then_after : ℕ) → SeedTurns state live a after → SeedTurns state live b then_after → (a ≡ b) × (after ≡ then_after) }
{}
