// Commands that answer a document by a status and a text.
ghost use Rattle.std.specs.Prelude.{◌≡◌, ◌≤◌, Err, IfOk, IfErr};
ghost use Rattle.bp_base.specs.Causes.{Rose};
ghost use Rattle.bp_engine.specs.Outcomes.{IsFinal, WritesText};
ghost use Rattle.bp_engine.specs.Run.{IsSilent};
ghost use Rattle.bp_engine.specs.Texts.{MayWrite};

use crate::Status;
use bp_base::{Failed, Sink};
use bp_text::put;

// A status and the text that is then written.
#[derive(Drop)]
pub struct Answer {
    pub status: Status,
    pub text: Vec<u8>,
}

// Writes the answer, where there is one, or says why there is none.
pub fn write_answered<K: Sink>(answered: Result<Answer, Status>, out: &mut K) -> Status
    requires ends { IfOk answered (λ a. IsFinal a.status) }
    requires none { IfErr answered (λ s. MayWrite s → ⊥) }
    requires loud { IfErr answered (λ s. IsSilent s → ⊥) }
    ensures text { IfOk answered (λ a. WritesText a.status a.text.items (K.held out.old) (K.held out.new) result) }
    ensures no_text { IfErr answered (λ s. (result ≡ s) × (K.held out.new ≡ K.held out.old)) }
    ensures unwritten { (MayWrite result → ⊥) → out.new ≡ out.old }
    ensures loud { IsSilent result → ⊥ }
    ensures read { result ≡ Status.ReadFault → answered ≡ Err Status.ReadFault }
    ensures write { result ≡ Status.WriteFault → Rose (K.faults out.old) (K.faults out.new) }
{
    match answered {
        Ok(answer) => write_answer(&answer, out),
        Err(status) => status,
    }
}

// Writes the text at once. Its status comes where that is done.
fn write_answer<K: Sink>(answer: &Answer, out: &mut K) -> Status
    requires { IsFinal answer.now.status }
    ensures text { WritesText answer.now.status answer.now.text.items (K.held out.old) (K.held out.new) result }
    ensures ends { MayWrite result }
    ensures write { result ≡ Status.WriteFault → Rose (K.faults out.old) (K.faults out.new) }
{
    match put(out, &answer.text) {
        Ok(()) => answer.status,
        Err(Failed) => Status::WriteFault,
    }
}
