use bp_base::{Left, Placement, Task};

/// Where a hand stands in its turn, with what it has in hand there.
#[derive(Drop)]
pub enum Place {
    /// It is about to load the side word.
    Ready,
    /// It is about to pop from its own deque.
    Taking,
    /// It is about to steal from this hand's deque.
    Trying { from: u64 },
    /// It holds a task, and is about to draw a ticket for it.
    Holding { task: Task },
    /// It holds a task and its ticket, and is about to examine the task.
    Drawn { task: Task, ticket: u64 },
    /// It has solved a path, and is about to offer its side.
    Offering { placement: Placement },
    /// It has children to place.
    Pushing,
    /// It is about to leave, for this reason.
    Leaving { left: Left },
    /// It has left.
    Gone { left: Left },
}
