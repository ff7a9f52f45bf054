ghost use Rattle.std.specs.Prelude.{◌≡◌};
ghost use Rattle.bp_check.specs.declared.fault.CheckFault.TheVariants.{NoMemory as NoRoom};

use crate::Verdict;
use bp_base::NoMemory;
use bp_document::DocFault;
use thiserror::Error;

/// What a check in one pass tells of a document: the verdict, the side, on a strip the height, and the bound, in grid units.
#[derive(Clone, Copy, Debug, PartialEq, Eq)]
pub struct Streamed {
    pub verdict: Verdict,
    pub side: u64,
    pub bound: u64,
}

/// Why a check in one pass has no verdict.
#[derive(Debug, Drop, Error)]
pub enum CheckFault {
    /// The bytes are no document's text.
    #[error("line {}: {:?}", .0.line, .0.kind)]
    Doc(DocFault),
    /// The source failed.
    #[error("a read failed")]
    Read,
    #[error("no memory")]
    NoMemory,
}

impl From<NoMemory> for CheckFault {
    ghost from_gives = { λ _ e. e ≡ NoRoom };

    fn from(_: NoMemory) -> Self {
        CheckFault::NoMemory
    }
}
