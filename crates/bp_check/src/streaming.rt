// A check in one pass over a source.
ghost use Rattle.std.specs.Prelude.{◌≡◌, ◌≤◌, [], IfErr};
ghost use Rattle.bp_base.specs.Causes.{Rose};
ghost use Rattle.bp_base.specs.Tree.{TreeValue};
ghost use Rattle.bp_check.specs.declared.fault.CheckFault.TheVariants.{NoMemory as NoRoom, Read as ReadFault};
ghost use Rattle.bp_check.specs.Intake.{HasTakenIn, IsUnderway};
ghost use Rattle.bp_check.specs.Streams.{Streams};

use crate::fault::{CheckFault, Streamed};
use crate::intake::Intake;
use bp_base::{MOST_DOCUMENT_BYTES, ReadError, Source, Tree, read_into};
use std::alloc::Global;

// One byte more than a document has at most, by which a longer input is known.
const MOST_READ: u64 = MOST_DOCUMENT_BYTES + 1;

/// Whether the document that a source holds is a right design of the tree, in one intake. It holds one line, one path and one entry for each
/// open split, and takes all its memory before the first read: with NoMemory nothing was read. The source is read to its end, or to one byte past the limit of a document,
/// also after a fault, since a text that is too long has that fault first.
pub fn check_source<D: Source>(
    alloc: Global,
    tree: &Tree,
    source: &mut D,
) -> Result<Streamed, CheckFault>
    ensures streams { Streams tree.now (D.left source.old) (D.left source.new) result }
    ensures read { IfErr result (λ f. f ≡ ReadFault → Rose (D.faults source.old) (D.faults source.new)) }
    ensures unread { IfErr result (λ f. f ≡ NoRoom → source.new ≡ source.old) }
    ensures later { D.faults source.old ≤ D.faults source.new }
{
    let mut intake = Intake::open(alloc, tree)?;
    let streamed = check_all(&mut intake, source);
    // Dropped by a call: the proof of a drop in place goes through all that an intake holds, branch by branch.
    drop(intake);
    streamed
}

// The answer for all bytes of the source, by an intake that has taken nothing.
fn check_all<D: Source>(intake: &mut Intake, source: &mut D) -> Result<Streamed, CheckFault>
    requires underway { IsUnderway intake.old }
    ensures streams { (T : TreeValue) → HasTakenIn T intake.old [] → Streams T (D.left source.old) (D.left source.new) result }
    ensures read { IfErr result (λ f. f ≡ ReadFault → Rose (D.faults source.old) (D.faults source.new)) }
    ensures memory { IfErr result (λ f. f ≡ NoRoom → ⊥) }
    ensures later { D.faults source.old ≤ D.faults source.new }
{
    match read_into(source, intake, MOST_READ) {
        Ok(count) => match intake.finish(count) {
            Ok(streamed) => Ok(streamed),
            Err(fault) => Err(CheckFault::Doc(fault)),
        },
        Err(ReadError::Failed) => Err(CheckFault::Read),
        Err(ReadError::NoMemory) => unreachable!(),
    }
}
