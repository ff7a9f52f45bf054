//! Many trees, each answered in its place, over standard input and output.
#![tactic(auto)]

mod batch;
mod given;
mod pieces;
mod reply;
mod slot;
mod status;
mod telling;
mod words;
mod working;

use batch::run_batch;
use bp_base::{OpenGate, Sink};
use bp_catalogue::Catalogue;
use bp_outside::{Input, Output};
use status::BatchStatus;
use std::io::{self, ErrorKind};
use std::process::ExitCode;
use std::rt::Runtime;
use std::sync::{Mutex, Wait};
use std::thread::Threads;
use telling::tell;

fn main(rt: HostRuntime) -> ExitCode {
    let mut err = Output::new(rt.stderr());
    let status = match bp_outside::words(&rt) {
        Ok(words) => on_streams(&rt, &words, &mut err),
        Err(error) if error.kind() == ErrorKind::OutOfMemory => no_memory(&mut err),
        // Words that can't be had as text are a faulty command line, as an empty word is.
        Err(_) => on_streams(&rt, &[String::new(rt.alloc())], &mut err),
    };
    ExitCode::from(status.number())
}

fn on_streams<R: Runtime + AllocGlobal + Threads + Wait + Sync, E: Sink>(
    rt: &R,
    words: &[String],
    err: &mut E,
) -> BatchStatus {
    let Ok(catalogue) = Catalogue::open(rt.alloc()) else {
        return no_memory(err);
    };
    let mut input = Input::new(rt.reader());
    let mut out = Output::new(io::writer(rt));
    run_batch(
        rt,
        rt.alloc(),
        words,
        &mut input,
        &mut out,
        err,
        &Mutex::new(catalogue),
        &OpenGate,
    )
}

fn no_memory<E: Sink>(err: &mut E) -> BatchStatus {
    tell(err, BatchStatus::NoMemory);
    BatchStatus::NoMemory
}

#[cfg(test)]
mod tests;
