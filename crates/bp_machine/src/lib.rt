//! The search as a machine over events: each is one step of one hand.
#![tactic(auto)]

mod event;
mod hand;
mod laws;
mod moves;
mod place;
mod running;
mod seeded;
mod settling;
mod state;
mod step;

pub use event::{Event, Took};
pub use laws::law_of_steps;
pub use place::Place;
pub use running::run_schedule;
pub use seeded::run_seeded;
pub use state::State;
