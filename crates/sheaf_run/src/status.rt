ghost use Rattle.std.specs.Prelude.{◌≡◌};
ghost use Rattle.sheaf_run.specs.ExitNumbers.{exit_number};

/// How a run ended.
#[derive(Clone, Copy, Debug, PartialEq, Eq)]
pub enum Status {
    /// The job was done, and all of its text was written and flushed.
    Done,
    /// The source failed; nothing was written.
    ReadFault,
    /// The sink failed; it took a prefix of what was to be written.
    WriteFault,
    /// Memory ran out; nothing was written.
    NoMemory,
    /// The words are refused; nothing was read.
    BadWords,
    /// A line of the input is refused.
    BadLine,
    /// The complex of the input is refused: its incidences are not regular.
    BadComplex,
    /// The sheaf of the input is refused: a square does not commute.
    BadSheaf,
    /// The input asks for more than is served.
    Limit,
}

impl Status {
    /// The number with which the program exits.
    pub fn exit_number(self) -> u8
        ensures { result ≡ exit_number self }
    {
        match self {
            Status::Done => 0,
            Status::ReadFault => 1,
            Status::WriteFault => 2,
            Status::NoMemory => 3,
            Status::BadWords => 4,
            Status::BadLine => 5,
            Status::BadComplex => 6,
            Status::BadSheaf => 7,
            Status::Limit => 8,
        }
    }
}
