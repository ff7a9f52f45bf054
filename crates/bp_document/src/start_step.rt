// The lines up to the number of edges.
ghost use Rattle.bp_document.specs.Stages.{FeedsStage, IsOneMore};
ghost use Rattle.bp_document.specs.declared.stage.Stage.{Stage};

use crate::DocKind;
use crate::form::{field_of, sheet_form};
use crate::stage::{Memory, Stage};
use bp_base::{MOST_NODES, Sheet};

pub fn feed_version(memory: Memory, bytes: &[u8]) -> Result<Stage, DocKind>
    ensures stage { FeedsStage (Stage.Version memory) bytes.now result }
    ensures within { IsOneMore (Stage.Version memory) result }
{
    match field_of(bytes, b"boxpleat", 1, 2) {
        None => Err(DocKind::BadForm),
        Some(version) => {
            if version == 1 {
                let sheet = Sheet::Square;
                Ok(Stage::Edges { sheet, memory })
            } else {
                Ok(Stage::Sheet { memory })
            }
        }
    }
}

pub fn feed_sheet(memory: Memory, bytes: &[u8]) -> Result<Stage, DocKind>
    ensures stage { FeedsStage (Stage.Sheet memory) bytes.now result }
    ensures within { IsOneMore (Stage.Sheet memory) result }
{
    match sheet_form(bytes) {
        None => Err(DocKind::BadForm),
        Some(sheet) => Ok(Stage::Edges { sheet, memory }),
    }
}

pub fn feed_edge_count(sheet: Sheet, memory: Memory, bytes: &[u8]) -> Result<Stage, DocKind>
    ensures stage { FeedsStage (Stage.Edges sheet memory) bytes.now result }
    ensures within { IsOneMore (Stage.Edges sheet memory) result }
{
    match field_of(bytes, b"edges", 2, MOST_NODES - 1) {
        None => Err(DocKind::BadForm),
        Some(count) => Ok(Stage::Edge {
            sheet,
            count,
            left: count,
            memory,
        }),
    }
}
