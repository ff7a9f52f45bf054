use bp_check::Reason;
use bp_document::DocFault;
use bp_tree::TreeFault;
use bp_verify::Reason as Flaw;

/// How a run ended.
#[derive(Clone, Copy, Debug, PartialEq, Eq)]
pub enum Status {
    /// The text is written.
    Done,
    /// The bytes of the tree are no tree.
    TreeRefused(TreeFault),
    /// The bytes of the document are no document.
    DocRefused(DocFault),
    /// The words are not in the table of commands.
    Usage,
    /// The budget was spent first: the design's side and its bound, in grid units, which is less.
    GaveUp { side: u64, bound: u64 },
    /// A source that the command reads has failed.
    ReadFault,
    /// A sink that the command writes has failed; it then holds a front of its text.
    WriteFault,
    /// Memory ran out, before anything was written.
    NoMemory,
    /// The document fails this condition; the reason is written.
    No(Reason),
    /// The certificate fails this condition; the reason is written.
    NoCertificate(Flaw),
    /// The words ask for something that isn't built yet.
    NotBuilt,
    /// The steady answer wants more than its budget, in paths that the searches under bounds may examine.
    Unsteady { budget: u64 },
    /// The old document checks, but the tree has other nodes, parents or names than its own.
    ShapeDiffers,
}

impl Status {
    ghost use Rattle.std.specs.Prelude.{◌≡◌};
    ghost use Rattle.bp_engine.specs.Texts.{number_of};

    /// The number that the program ends with.
    pub fn number(self) -> u8
        ensures { result ≡ number_of self }
    {
        match self {
            Status::Done => 0,
            Status::TreeRefused(_) => 1,
            Status::DocRefused(_) => 1,
            Status::Usage => 2,
            Status::GaveUp { .. } => 3,
            Status::ReadFault => 4,
            Status::WriteFault => 5,
            Status::NoMemory => 6,
            Status::No(_) => 7,
            Status::NoCertificate(_) => 7,
            Status::NotBuilt => 8,
            Status::Unsteady { .. } => 9,
            Status::ShapeDiffers => 10,
        }
    }
}
