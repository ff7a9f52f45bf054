//! The packing optimiser: does what its words say, over standard input and output and the files that they name.
#![tactic(auto)]

use bp_base::{CountSink, OpenGate, QuietSource, Sink, Source};
use bp_engine::{Status, Words, run, words_of};
use bp_outside::{FileSink, FileSource, Input, Output, words};
use std::io::{self, ErrorKind};
use std::process::ExitCode;
use std::rt::Runtime;
use std::thread::Threads;

fn main(rt: HostRuntime) -> ExitCode {
    let mut err = Output::new(rt.stderr());
    let ran = match words(&rt) {
        Ok(words) => on_streams(&rt, &words, &mut err),
        Err(error) if error.kind() == ErrorKind::OutOfMemory => Err(error),
        // Words that can't be had as text are a faulty command line, as no words at all are.
        Err(_) => on_streams(&rt, &[], &mut err),
    };
    let status = match ran {
        Ok(status) => status,
        Err(_) => {
            let _ = err.write(b"no memory\n");
            Status::NoMemory
        }
    };
    ExitCode::from(status.number())
}

// Chooses what is read and written. A tree comes from standard input, or from the file that the words name; a document always comes from
// standard input.
fn on_streams<R: Runtime + AllocGlobal + Threads + Sync, E: Sink>(
    rt: &R,
    words: &[String],
    err: &mut E,
) -> io::Result<Status> {
    let mut input = Input::new(rt.reader());
    let mut nothing = QuietSource {
        bytes: Vec::new(rt.alloc()),
        at: 0,
    };
    let mut no_fold = CountSink { length: 0 };
    Ok(match words_of(words) {
        Some(Words::Check { tree } | Words::Revise { tree, .. } | Words::Verify { tree }) => {
            let mut file = FileSource::at(rt, words[tree as usize].clone()?);
            run_on(rt, words, &mut file, &mut input, &mut no_fold, err)
        }
        Some(Words::Contours | Words::Rewrite | Words::Pieces | Words::Picture) => {
            run_on(rt, words, &mut nothing, &mut input, &mut no_fold, err)
        }
        Some(
            Words::Design {
                fold: Some(place),
                ..
            }
            | Words::Solve {
                fold: Some(place),
                ..
            },
        ) => {
            let mut file = FileSink::at(rt, words[place as usize].clone()?);
            run_on(rt, words, &mut input, &mut nothing, &mut file, err)
        }
        _ => run_on(rt, words, &mut input, &mut nothing, &mut no_fold, err),
    })
}

fn run_on<R: Runtime + AllocGlobal + Threads + Sync, T: Source, D: Source, F: Sink, E: Sink>(
    rt: &R,
    words: &[String],
    tree: &mut T,
    document: &mut D,
    fold: &mut F,
    err: &mut E,
) -> Status {
    let mut out = Output::new(io::writer(rt));
    run(
        rt,
        rt.alloc(),
        words,
        tree,
        document,
        &mut out,
        fold,
        err,
        &OpenGate,
    )
}
