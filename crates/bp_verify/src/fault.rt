ghost use Rattle.std.specs.Prelude.{◌≡◌};
ghost use Rattle.bp_verify.specs.declared.fault.VerifyFault.TheVariants.{NoMemory as NoRoom};

use crate::Verdict;
use bp_base::NoMemory;
use bp_document::DocFault;
use thiserror::Error;

/// What is told of a certificate: the verdict, the side, on a strip the height, and the bound, in grid units.
#[derive(Clone, Copy, Debug, PartialEq, Eq)]
pub struct Verified {
    pub verdict: Verdict,
    pub side: u64,
    pub bound: u64,
}

/// Why there is no verdict.
#[derive(Debug, Drop, Error)]
pub enum VerifyFault {
    /// The bytes are no certificate's text.
    #[error("line {}: {:?}", .0.line, .0.kind)]
    Doc(DocFault),
    /// The source failed.
    #[error("a read failed")]
    Read,
    #[error("no memory")]
    NoMemory,
}

impl From<NoMemory> for VerifyFault {
    ghost from_gives = { λ _ e. e ≡ NoRoom };

    fn from(_: NoMemory) -> Self {
        VerifyFault::NoMemory
    }
}
