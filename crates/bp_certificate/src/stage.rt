use crate::{CertificateHead, Lemma};
use bp_base::{Pair, Sequence, Sheet};
use bp_document::{DocKind, Head, Memory, Stage as DocStage};

/// Which line comes next, and what those before it gave.
#[derive(Drop)]
pub enum Stage {
    Version {
        memory: Memory,
    },
    Sheet {
        memory: Memory,
    },
    Mirror {
        sheet: Sheet,
        memory: Memory,
    },
    /// A line from the number of edges to the floor.
    Body {
        stage: DocStage,
    },
    /// How many lemmas there are.
    Count {
        design: Head,
    },
    Corner {
        design: Head,
        count: u64,
    },
    SwapCount {
        design: Head,
        count: u64,
        corner: Option<Pair>,
    },
    /// A swap of so many in all.
    Swaps {
        design: Head,
        count: u64,
        corner: Option<Pair>,
        total: u64,
        swaps: Sequence<Sequence<Pair>>,
    },
    /// A lemma, of which some are left.
    Lemmas {
        head: CertificateHead,
        left: u64,
    },
    End {
        head: CertificateHead,
    },
    Behind {
        head: CertificateHead,
    },
    /// Some line had a fault, or memory lacked.
    Broken,
}

/// The next stage, and the lemma where the line was a lemma's.
#[derive(Drop)]
pub struct Step {
    pub stage: Stage,
    pub lemma: Option<Lemma>,
}

/// Why a line leads no further.
#[derive(Drop)]
pub enum Halt {
    Fault(DocKind),
    NoMemory,
}
