//! Design documents: what they hold, and their text.
#![tactic(auto)]

mod body_step;
mod builder;
mod cut;
mod document;
mod edge_step;
mod fault;
mod form;
mod head;
mod laws;
mod line;
mod node;
mod node_line;
mod node_step;
mod point_step;
mod points;
mod read;
mod room;
mod scanner;
mod stage;
mod start_step;
mod step;
mod write;

pub use body_step::head_of;
pub use cut::{next_word, split_word};
pub use document::Document;
pub use fault::{DocFault, DocKind, ReadDoc};
pub use form::{field_of, number_within, sheet_form};
pub use head::Head;
pub use laws::{law_of_long_lines, law_of_one_answer, law_of_sizes};
pub use line::{axis_word, put_end, put_field, put_floor, put_keyword, put_sheet, put_two_words};
pub use node_line::{NodeKind, NodeLine, axis_of, pair_of};
pub use points::put_points;
pub use read::read_document;
pub use room::Room;
pub use scanner::{MOST_LINE, Scanner};
pub use stage::{Fall, Memory, Parts, Stage, Step};
pub use step::take_line;
pub use write::{put_edges, write_document};
