// What a status tells on the error output.
ghost use Rattle.std.specs.Prelude.{◌≡◌, ◌++◌, ◌∷◌, [], codes, decimal};
ghost use Rattle.bp_base.specs.Causes.{HasCause};
ghost use Rattle.bp_text.specs.Puts.{Puts};
ghost use Rattle.bp_engine.specs.Run.{Tells};
ghost use Rattle.bp_engine.specs.Texts.{doc_kind_text, kind_text, text_of};

use crate::Status;
use bp_base::{Failed, Sink};
use bp_document::{DocFault, DocKind};
use bp_text::{Digits, put, put_parts};
use bp_tree::{TreeFault, TreeKind};
use itoa::Buffer;

// Tells the status. A failing error output changes no status.
pub fn tell<E: Sink>(err: &mut E, status: Status)
    ensures { Tells (E.held err.old) (E.held err.new) (E.faults err.old) (E.faults err.new) (text_of status) }
{
    let _ = put_status(err, status);
}

/// Writes what the status tells on the error output.
#[tactic(auto, unfolding(crate::specs::Texts::text_of))]
pub fn put_status<E: Sink>(err: &mut E, status: Status) -> Result<(), Failed>
    ensures text { Puts (E.held err.old) (E.held err.new) result (text_of status) }
    ensures cause { HasCause (E.faults err.old) (E.faults err.new) result }
{
    match status {
        Status::Done => put(err, b""),
        Status::TreeRefused(fault) => put_fault(err, fault),
        Status::DocRefused(fault) => put_doc_fault(err, fault),
        Status::Usage => put(
            err,
            b"usage: boxpleat design, check, contours, made or trial\n",
        ),
        Status::GaveUp { side, bound } => put_gave_up(err, side, bound),
        Status::ReadFault => put(err, b"read fault\n"),
        Status::WriteFault => put(err, b"write fault\n"),
        Status::NoMemory => put(err, b"no memory\n"),
        Status::No(_) => put(err, b""),
        Status::NoCertificate(_) => put(err, b""),
        Status::NotBuilt => put(err, b"not built\n"),
        Status::Unsteady { budget } => put_unsteady(err, budget),
        Status::ShapeDiffers => put(err, b"shape differs\n"),
    }
}

fn put_gave_up<E: Sink>(err: &mut E, side: u64, bound: u64) -> Result<(), Failed>
    ensures text { Puts (E.held err.old) (E.held err.new) result (codes "gave up: side " ++ decimal side ++ codes " bound " ++ decimal bound ++ 10 ∷ []) }
    ensures cause { HasCause (E.faults err.old) (E.faults err.new) result }
{
    put_two(err, b"gave up: side ", side, b" bound ", bound)
}

fn put_unsteady<E: Sink>(err: &mut E, budget: u64) -> Result<(), Failed>
    ensures text { Puts (E.held err.old) (E.held err.new) result (codes "unsteady: budget " ++ decimal budget ++ 10 ∷ []) }
    ensures cause { HasCause (E.faults err.old) (E.faults err.new) result }
{
    put_one(err, b"unsteady: budget ", budget)
}

// A number behind its words.
fn put_one<E: Sink>(err: &mut E, start: &[u8], number: u64) -> Result<(), Failed>
    ensures text { Puts (E.held err.old) (E.held err.new) result (start.now ++ decimal number ++ 10 ∷ []) }
    ensures cause { HasCause (E.faults err.old) (E.faults err.new) result }
{
    let mut digits = Digits::new();
    let parts = [start, digits.of(number), b"\n"];
    put_parts(err, &parts)
}

// Two numbers, each behind its words.
fn put_two<E: Sink>(
    err: &mut E,
    start: &[u8],
    first: u64,
    middle: &[u8],
    second: u64,
) -> Result<(), Failed>
    ensures text { Puts (E.held err.old) (E.held err.new) result (start.now ++ decimal first ++ middle.now ++ decimal second ++ 10 ∷ []) }
    ensures cause { HasCause (E.faults err.old) (E.faults err.new) result }
{
    let mut digits = Digits::new();
    let mut more = Digits::new();
    let parts = [start, digits.of(first), middle, more.of(second), b"\n"];
    put_parts(err, &parts)
}

fn put_fault<E: Sink>(err: &mut E, fault: TreeFault) -> Result<(), Failed>
    ensures text { Puts (E.held err.old) (E.held err.new) result (codes "tree: line " ++ decimal fault.line ++ codes ": " ++ kind_text fault.kind ++ 10 ∷ []) }
    ensures cause { HasCause (E.faults err.old) (E.faults err.new) result }
{
    put_fault_words(err, b"tree: line ", fault.line, kind_word(fault.kind))
}

fn put_doc_fault<E: Sink>(err: &mut E, fault: DocFault) -> Result<(), Failed>
    ensures text { Puts (E.held err.old) (E.held err.new) result (codes "document: line " ++ decimal fault.line ++ codes ": " ++ doc_kind_text fault.kind ++ 10 ∷ []) }
    ensures cause { HasCause (E.faults err.old) (E.faults err.new) result }
{
    put_fault_words(
        err,
        b"document: line ",
        fault.line,
        doc_kind_word(fault.kind),
    )
}

fn put_fault_words<E: Sink>(err: &mut E, start: &[u8], line: u64, kind: &[u8]) -> Result<(), Failed>
    ensures text { Puts (E.held err.old) (E.held err.new) result (start.now ++ decimal line ++ codes ": " ++ kind.now ++ 10 ∷ []) }
    ensures cause { HasCause (E.faults err.old) (E.faults err.new) result }
{
    let mut buffer = Buffer::new();
    let line = buffer.format(line).as_bytes();
    put_parts(err, &[start, line, b": ", kind, b"\n"])
}

fn kind_word(kind: TreeKind) -> &'static [u8]
    ensures { result.now ≡ kind_text kind }
{
    match kind {
        TreeKind::TooLong => b"TooLong",
        TreeKind::BadJson => b"BadJson",
        TreeKind::BadShape => b"BadShape",
        TreeKind::BadByte => b"BadByte",
        TreeKind::WordCount => b"WordCount",
        TreeKind::BadName => b"BadName",
        TreeKind::BadLength => b"BadLength",
        TreeKind::UnknownParent => b"UnknownParent",
        TreeKind::RepeatedName => b"RepeatedName",
        TreeKind::TooManyNodes => b"TooManyNodes",
        TreeKind::Empty => b"Empty",
        TreeKind::RootIsLeaf => b"RootIsLeaf",
        TreeKind::TooManyLeaves => b"TooManyLeaves",
    }
}

fn doc_kind_word(kind: DocKind) -> &'static [u8]
    ensures { result.now ≡ doc_kind_text kind }
{
    match kind {
        DocKind::TooLong => b"TooLong",
        DocKind::Trailing => b"Trailing",
        DocKind::Cut => b"Cut",
        DocKind::BadForm => b"BadForm",
        DocKind::BadTree => b"BadTree",
        DocKind::BadPoint => b"BadPoint",
        DocKind::BadDepth => b"BadDepth",
    }
}
