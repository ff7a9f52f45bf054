//! The real input, output and files as sources and sinks, which tell no content, and the words of the command line.
#![tactic(auto)]

mod arguments;
mod file;
mod stream;

pub use arguments::words;
pub use file::{FileReader, FileSink, FileSource, FileWriter};
pub use stream::{Input, Output};
