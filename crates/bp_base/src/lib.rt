//! The common types of the packing optimiser, the traits of the outside, and their forms in memory.
#![tactic(auto)]

mod calls;
mod chain;
mod generator;
mod hold;
mod limits;
mod memory;
mod name;
mod outside;
mod path;
mod point;
mod reading;
mod record;
mod refutation;
mod schedule;
mod sequence;
mod sink;
mod source;
mod tree;

pub use chain::{Chain, Claim};
pub use generator::draw;
pub use hold::HoldGate;
pub use limits::{
    MOST_BUDGET, MOST_DOCUMENT_BYTES, MOST_HANDS, MOST_LEAVES, MOST_LENGTH, MOST_NAME, MOST_NODES,
    MOST_NUMBER, MOST_PROOF_LINES, MOST_STEPS, MOST_TREE_BYTES, MOST_WIDTH,
};
pub use memory::NoMemory;
pub use name::Name;
pub use outside::{Failed, Gate, OpenGate, Schedule, Sink, Source};
pub use path::{Choice, Pair, Path, Step};
pub use point::{Axis, Floor, Line, Piece, Placement, Point, Report, Sheet};
pub use reading::{ReadError, TakesBytes, read_into, read_whole};
pub use record::{Least, Left, Outcome, Record, RecordKind, Settled, Task, Walked};
pub use refutation::Refutation;
pub use schedule::{ListSchedule, SeedSchedule, law_of_turns};
pub use sequence::Sequence;
pub use sink::{CountSink, MemSink};
pub use source::{MemSource, QuietSource};
pub use tree::Tree;
