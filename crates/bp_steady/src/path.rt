// The path of a search: its steps, each of which tells which choices of its pair are done with, and the row before each of them. Beside
// it the path of the last question that was answered Yes, the guide: what was done with on its way has no placement under tighter bounds.
ghost use Rattle.std.specs.Prelude.{◌≡◌, ◌<◌, ◌∷◌, ◌++◌, ◌-◌, [], ℕ, IfOk, IfSome, false, length, slice_index_or};
ghost use Rattle.bp_base.specs.Tree.{IsTree, TreeValue};
ghost use Rattle.bp_steady.specs.Bounds.{BoundsValue};
ghost use Rattle.bp_steady.specs.Stack.{IsGuiding, IsLed, IsShut, IsStepped, IsTurned, choice_after};

use bp_base::{Choice, MOST_STEPS, NoMemory, Pair, Step};
use std::alloc::Global;
use std::mem::swap;

#[derive(Drop)]
pub struct Path {
    pub steps: Vec<Step>,
    pub rows: Vec<[u64; 64]>,
    pub guide: Vec<Step>,
    // Whether the steps are the first of the guide.
    pub led: bool,
}

impl Path {
    pub fn new(alloc: Global) -> Result<Path, NoMemory>
        ensures { IfOk result (λ path. path.guide.items ≡ []) }
    {
        let steps = Vec::with_capacity(alloc, MOST_STEPS as usize)?;
        let rows = Vec::with_capacity(alloc, MOST_STEPS as usize)?;
        let guide = Vec::with_capacity(alloc, MOST_STEPS as usize)?;
        Ok(Path {
            steps,
            rows,
            guide,
            led: true,
        })
    }

    pub fn clear(&mut self)
        ensures steps { self.new.steps.items ≡ [] }
        ensures rows { self.new.rows.items ≡ [] }
        ensures guide { self.new.guide.items ≡ self.old.guide.items }
    {
        self.steps.clear();
        self.rows.clear();
        self.led = true;
    }

    // The path becomes the guide.
    pub fn keep(&mut self)
        ensures { self.new.guide.items ≡ self.old.steps.items }
    {
        swap(&mut self.steps, &mut self.guide);
    }

    // The first choice of this pair that isn't done with, and the row before it.
    pub fn push(&mut self, pair: Pair, row: &[u64; 64]) -> Result<(), NoMemory>
        requires led { IsLed self.old.led self.old.steps.items self.old.guide.items }
        ensures steps { IfOk result (λ _. IsStepped self.old.guide.items pair self.old.steps.items self.new.steps.items) }
        ensures rows { IfOk result (λ _. self.new.rows.items ≡ self.old.rows.items ++ row.now ∷ []) }
        ensures led { IfOk result (λ _. IsLed self.new.led self.new.steps.items self.new.guide.items) }
        ensures guide { self.new.guide.items ≡ self.old.guide.items }
    {
        let choice = Choice::Left;
        let (step, led) = match self.guiding(pair) {
            Some(step) => (step, true),
            None => (Step { pair, choice }, false),
        };
        self.led = led;
        self.steps.push(step)?;
        self.rows.push(*row)?;
        Ok(())
    }

    // The next step of the guide, where the path is on it and the step is of this pair.
    fn guiding(&self, pair: Pair) -> Option<Step>
        ensures { IfSome result (λ step. IsGuiding self.now.led self.now.steps.items self.now.guide.items pair step) }
    {
        let at = self.steps.len();
        if !self.led || self.guide.len() <= at {
            return None;
        }
        let step = self.guide[at];
        if step.pair.i != pair.i || step.pair.j != pair.j {
            return None;
        }
        Some(step)
    }

    // The row before the last step.
    pub fn last_row(&self) -> [u64; 64]
        requires { 0 < length self.now.rows.items }
        ensures { result ≡ slice_index_or self.now.rows.items (length self.now.rows.items - 1) [] }
    {
        self.rows[self.rows.len() - 1]
    }

    // The path is done with: on to the next choice of the last step that has one. False where none has.
    pub fn turn(&mut self) -> bool
        ensures led { self.new.led ≡ false }
        ensures guide { self.new.guide.items ≡ self.old.guide.items }
        ensures turned { (T : TreeValue) (b : BoundsValue) (budget left : ℕ) → IsTree T → IsShut T b budget self.old.steps.items self.old.rows.items left → IsTurned T b budget self.new.steps.items self.new.rows.items left result }
    {
        self.led = false;
        while self.steps.len() > 0 {
            let last = self.steps.len() - 1;
            let step = self.steps[last];
            match next_choice(step.choice) {
                Some(choice) => {
                    let pair = step.pair;
                    self.steps[last] = Step { pair, choice };
                    return true;
                }
                None => {
                    self.steps.truncate(last);
                    self.rows.truncate(last);
                }
            }
        }
        false
    }
}

fn next_choice(choice: Choice) -> Option<Choice>
    ensures { result ≡ choice_after choice }
{
    match choice {
        Choice::Left => Some(Choice::Right),
        Choice::Right => Some(Choice::Below),
        Choice::Below => Some(Choice::Above),
        Choice::Above => None,
    }
}
