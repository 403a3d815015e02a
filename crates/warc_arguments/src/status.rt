//! How a run of the program ends.
ghost use Rattle.std.specs.Prelude.{◌≡◌};
ghost use Rattle.warc_arguments.specs.Exit.{code_of};

/// How a run of the program ends.
#[derive(Clone, Copy, Debug, PartialEq, Eq)]
pub enum Status {
    /// All was done.
    Done,
    /// The archive was checked and something was found, or what was asked for isn't there.
    Found,
    /// The archive is refused.
    Refused,
    /// The words are wrong, the file doesn't open, or a read, a write or an allocation failed.
    Failed,
    /// Some block or payload can't be checked.
    Unchecked,
}

impl Status {
    /// The exit status of the program.
    pub fn code(self) -> u8
        ensures { result ≡ code_of self }
    {
        match self {
            Status::Done => 0,
            Status::Found => 1,
            Status::Refused => 2,
            Status::Failed => 3,
            Status::Unchecked => 4,
        }
    }
}
