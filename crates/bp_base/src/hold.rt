use crate::Gate;
use std::sync::atomic::{AtomicBool, Ordering};

/// How often a hold of the gate loads its flag before it gives up.
const MOST_LOADS: u64 = 1_000_000_000;

/// A gate that holds hand 1 at its first pass until hand 2 has come with at least one record, and hand 2 at its first pass with at
/// least one record until hand 1 has come. A hold ends after 1,000,000,000 loads of its flag, and the gate then notes that it gave
/// up. So no single thread makes all passes without that note.
#[derive(Drop)]
pub struct HoldGate {
    first_came: AtomicBool,
    second_came: AtomicBool,
    gave_up: AtomicBool,
}

impl HoldGate {
    /// A gate to which no hand has come.
    pub fn new() -> HoldGate {
        HoldGate {
            first_came: AtomicBool::new(false),
            second_came: AtomicBool::new(false),
            gave_up: AtomicBool::new(false),
        }
    }

    /// Whether a hold ended before the other hand had come.
    pub fn gave_up(&self) -> bool {
        self.gave_up.load(Ordering::SeqCst)
    }

    // Holds the hand that comes to a flag for the first time until the other's flag is set.
    fn meet(&self, own: &AtomicBool, other: &AtomicBool) {
        if !own.swap(true, Ordering::SeqCst) && !comes(other) {
            self.gave_up.store(true, Ordering::SeqCst);
        }
    }
}

impl Gate for HoldGate {
    fn pass(&self, hand: u64, records: u64) {
        if hand == 1 {
            self.meet(&self.first_came, &self.second_came);
        } else if hand == 2 && records > 0 {
            self.meet(&self.second_came, &self.first_came);
        }
    }
}

// Whether the flag is set before it was loaded as often as a hold lasts.
fn comes(flag: &AtomicBool) -> bool {
    for _ in 0..MOST_LOADS {
        if flag.load(Ordering::SeqCst) {
            return true;
        }
    }
    false
}
