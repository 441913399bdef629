ghost use Rattle.std.specs.Prelude.{◌≡◌};
ghost use Rattle.gl_base.specs.Status.{code_of};

/// How a run ended.
#[derive(Clone, Copy, Debug, PartialEq, Eq)]
pub enum Status {
    /// Every theorem is proved or vacuous, every value is printed, every assertion holds.
    Good,
    /// A theorem is refuted, or an assertion is nil.
    Refuted,
    /// The book is refused at some place.
    BookRefused,
    /// A theorem, a value or an assertion is undecided.
    Undecided,
    /// A read failed, and nothing was written.
    ReadFault,
    /// A write or the flush failed.
    WriteFault,
    /// Memory was not given.
    NoMemory,
    /// The words are no command.
    Usage,
}

impl Status {
    /// The exit code of the process.
    pub fn code(self) -> u8
        ensures { result ≡ code_of self }
    {
        match self {
            Status::Good => 0,
            Status::Refuted => 1,
            Status::BookRefused => 2,
            Status::Undecided => 3,
            Status::ReadFault => 4,
            Status::WriteFault => 5,
            Status::NoMemory => 6,
            Status::Usage => 64,
        }
    }
}
