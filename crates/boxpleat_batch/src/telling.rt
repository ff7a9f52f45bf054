// What a status tells on the error output.
ghost use Rattle.std.specs.Prelude.{◌≡◌, codes};
ghost use Rattle.bp_base.specs.Causes.{HasCause};
ghost use Rattle.bp_text.specs.Puts.{Puts};
ghost use Rattle.bp_engine.specs.Run.{Tells};
ghost use Rattle.boxpleat_batch.specs.Texts.{text_of};

use crate::status::{BatchFault, BatchStatus};
use bp_base::{Failed, Sink};
use bp_text::put;

// Tells the status. A failing error output changes no status.
pub fn tell<E: Sink>(err: &mut E, status: BatchStatus)
    ensures { Tells (E.held err.old) (E.held err.new) (E.faults err.old) (E.faults err.new) (text_of status) }
{
    let _ = put_status(err, status);
}

#[tactic(auto, unfolding(crate::specs::Texts::text_of))]
fn put_status<E: Sink>(err: &mut E, status: BatchStatus) -> Result<(), Failed>
    ensures text { Puts (E.held err.old) (E.held err.new) result (text_of status) }
    ensures cause { HasCause (E.faults err.old) (E.faults err.new) result }
{
    match status {
        BatchStatus::Done => put(err, b""),
        BatchStatus::Refused(BatchFault::TooLong) => put(err, b"batch: TooLong\n"),
        BatchStatus::Refused(BatchFault::TooManyPieces) => put(err, b"batch: TooManyPieces\n"),
        BatchStatus::Usage => put(err, b"usage: boxpleat_batch [--workers W] [--budget B]\n"),
        BatchStatus::ReadFault => put(err, b"read fault\n"),
        BatchStatus::WriteFault => put(err, b"write fault\n"),
        BatchStatus::NoMemory => put(err, b"no memory\n"),
    }
}
