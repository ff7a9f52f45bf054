/// Why an input is refused.
#[derive(Clone, Copy, Debug, PartialEq, Eq)]
pub enum BatchFault {
    /// More than 4,194,304 bytes.
    TooLong,
    /// More than 200 pieces.
    TooManyPieces,
}

/// How a batch ended.
#[derive(Clone, Copy, Debug, PartialEq, Eq)]
pub enum BatchStatus {
    /// All replies are written.
    Done,
    Refused(BatchFault),
    /// The command refuses the words.
    Usage,
    /// The input has failed.
    ReadFault,
    /// The output has failed; it then holds a front of the replies.
    WriteFault,
    /// Memory ran out, before anything was written.
    NoMemory,
}

impl BatchStatus {
    ghost use Rattle.std.specs.Prelude.{◌≡◌};
    ghost use Rattle.boxpleat_batch.specs.Texts.{number_of};

    /// The number that the program ends with.
    pub fn number(self) -> u8
        ensures { result ≡ number_of self }
    {
        match self {
            BatchStatus::Done => 0,
            BatchStatus::Refused(_) => 1,
            BatchStatus::Usage => 2,
            BatchStatus::ReadFault => 4,
            BatchStatus::WriteFault => 5,
            BatchStatus::NoMemory => 6,
        }
    }
}
