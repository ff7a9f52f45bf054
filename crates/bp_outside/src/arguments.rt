use std::rt::Env;
use std::{env, io};

/// The words of the command line after the program's name. A word that isn't UTF-8, and want of memory, are errors of the whole.
pub fn words<R: Env + AllocGlobal>(rt: &R) -> io::Result<Vec<String>> {
    let mut words = Vec::new(rt.alloc());
    for word in env::args(rt)?.skip(1) {
        words.push(word)?;
    }
    Ok(words)
}
