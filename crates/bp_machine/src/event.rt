/// One step of a hand. Hands are numbered from 1.
#[derive(Clone, Copy)]
pub enum Event {
    Pop { hand: u64 },
    Steal { hand: u64, from: u64 },
    Draw { hand: u64 },
    Load { hand: u64 },
    Examine { hand: u64 },
    Offer { hand: u64 },
    Push { hand: u64 },
    Keep { hand: u64 },
    Leave { hand: u64 },
}

/// Whether an event was lawful, and so took place.
#[derive(Clone, Copy, Debug, PartialEq, Eq)]
pub enum Took {
    Done,
    Unlawful,
}
