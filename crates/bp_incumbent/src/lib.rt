//! The board: the best side found, the next ticket and a halt, which workers share without a lock.
#![tactic(auto)]

mod board;
mod halt;
mod pass;
mod seats;
mod side;
mod tickets;

pub use board::{Board, Closing};
pub use pass::{Note, Pass};
pub use tickets::Ticket;
