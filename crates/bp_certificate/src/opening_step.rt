// The lines from the version's to the floor's.
ghost use Rattle.std.specs.Prelude.{◌≡◌, Ok, None};
ghost use Rattle.bp_certificate.specs.Stages.{IsNext, Steps};
ghost use Rattle.bp_certificate.specs.declared.stage.Stage.{Stage};

use crate::stage::{Halt, Stage, Step};
use bp_base::Sheet;
use bp_document::{DocKind, Memory, Stage as DocStage, field_of, head_of, sheet_form, take_line};
use std::alloc::Global;

pub fn feed_version(memory: Memory, bytes: &[u8]) -> Result<Step, Halt>
    ensures { Steps (Stage.Version memory) bytes.now result }
{
    match field_of(bytes, b"boxpleat", 3, 3) {
        None => Err(Halt::Fault(DocKind::BadForm)),
        Some(_) => on(Stage::Sheet { memory }),
    }
}

pub fn feed_sheet(memory: Memory, bytes: &[u8]) -> Result<Step, Halt>
    ensures { Steps (Stage.Sheet memory) bytes.now result }
{
    match sheet_form(bytes) {
        None => Err(Halt::Fault(DocKind::BadForm)),
        Some(sheet) => on(Stage::Mirror { sheet, memory }),
    }
}

pub fn feed_mirror(sheet: Sheet, memory: Memory, bytes: &[u8]) -> Result<Step, Halt>
    ensures { Steps (Stage.Mirror sheet memory) bytes.now result }
{
    if bytes == b"mirror none".as_slice() {
        on(Stage::Body {
            stage: DocStage::Edges { sheet, memory },
        })
    } else {
        Err(Halt::Fault(DocKind::BadForm))
    }
}

/// A line that stands as in a document.
pub fn feed_body(alloc: Global, stage: DocStage, bytes: &[u8]) -> Result<Step, Halt>
    ensures { Steps (Stage.Body stage) bytes.now result }
{
    match take_line(alloc, stage, bytes, true) {
        Err(fall) => Err(Halt::Fault(fall.kind)),
        Ok(step) => on(behind_body(step.stage)),
    }
}

// The stage behind a line of the body: behind the floor it is that of the lemmas' number.
fn behind_body(stage: DocStage) -> Stage
    ensures { IsNext stage result }
{
    match stage {
        DocStage::Proof { parts, m, side } => Stage::Count {
            design: head_of(parts, m, side, None),
        },
        stage => Stage::Body { stage },
    }
}

/// A step without a lemma.
pub fn on(stage: Stage) -> Result<Step, Halt>
    ensures { result ≡ Ok (record { stage = stage; lemma = None }) }
{
    Ok(Step { stage, lemma: None })
}
