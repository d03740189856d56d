ghost use Rattle.std.specs.Prelude.{◌≡◌};
ghost use Rattle.command_replies.specs.Replies.{status_number};

/// How a call ends, with the number that the program returns.
#[derive(Debug, Clone, Copy, PartialEq, Eq)]
pub enum Status {
    /// What was asked for is written.
    Done = 0,
    /// The scenario has no instance, or what was checked isn't right.
    Refuted = 1,
    /// Nothing is decided.
    Undecided = 2,
    /// The source has a fault.
    SourceRefused = 3,
    /// The words ask for nothing that is known.
    WordsRefused = 4,
    /// The text of a run or of a record is none.
    TextRefused = 5,
    /// A file isn't there, is too long, or can't be read.
    FileUnusable = 6,
    /// The sink failed.
    SinkFailed = 7,
    /// Out of memory.
    OutOfMemory = 8,
}

impl Status {
    /// The number that the program returns.
    pub fn number(self) -> u8
        ensures { result ≡ status_number self }
    {
        self as u8
    }
}
