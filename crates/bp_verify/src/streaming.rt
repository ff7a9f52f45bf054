// Verifying in one pass over a source.
ghost use Rattle.std.specs.Prelude.{◌≡◌, ◌≤◌, [], IfErr};
ghost use Rattle.bp_base.specs.Causes.{Rose};
ghost use Rattle.bp_base.specs.Tree.{TreeValue};
ghost use Rattle.bp_verify.specs.declared.fault.VerifyFault.TheVariants.{Read as ReadFault};
ghost use Rattle.bp_verify.specs.Intake.{HasTakenIn, IsUnderway};
ghost use Rattle.bp_verify.specs.Streams.{Verifies};

use crate::fault::{Verified, VerifyFault};
use crate::intake::Intake;
use bp_base::{MOST_DOCUMENT_BYTES, ReadError, Source, Tree, read_into};
use std::alloc::Global;

// One byte more than a certificate has at most, by which a longer input is known.
const MOST_READ: u64 = MOST_DOCUMENT_BYTES + 1;

/// Whether the certificate that a source holds is a right design of the tree, in one pass. It holds one line and the facts of the lemmas, not
/// their hints. The source is read to its end, or to one byte past the limit of a certificate, also after a fault, since a text that is
/// too long has that fault first.
pub fn verify_source<D: Source>(
    alloc: Global,
    tree: &Tree,
    source: &mut D,
) -> Result<Verified, VerifyFault>
    ensures verifies { Verifies tree.now (D.left source.old) (D.left source.new) result }
    ensures read { IfErr result (λ f. f ≡ ReadFault → Rose (D.faults source.old) (D.faults source.new)) }
    ensures later { D.faults source.old ≤ D.faults source.new }
{
    let mut intake = Intake::open(alloc, tree)?;
    let verified = verify_all(alloc, &mut intake, source);
    // Dropped by a call, for the proof's sake as in `verify_text`.
    drop(intake);
    verified
}

// The answer for all bytes of the source, by an intake that has taken nothing.
fn verify_all<D: Source>(
    alloc: Global,
    intake: &mut Intake,
    source: &mut D,
) -> Result<Verified, VerifyFault>
    requires underway { IsUnderway intake.old }
    ensures verifies { (T : TreeValue) → HasTakenIn T intake.old [] → Verifies T (D.left source.old) (D.left source.new) result }
    ensures read { IfErr result (λ f. f ≡ ReadFault → Rose (D.faults source.old) (D.faults source.new)) }
    ensures later { D.faults source.old ≤ D.faults source.new }
{
    match read_into(source, intake, MOST_READ) {
        Ok(count) => intake.finish(alloc, count),
        Err(ReadError::Failed) => Err(VerifyFault::Read),
        Err(ReadError::NoMemory) => Err(VerifyFault::NoMemory),
    }
}
