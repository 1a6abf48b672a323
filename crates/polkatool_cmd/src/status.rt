ghost use Rattle.std.specs.Prelude.{◌≡◌};
ghost use Rattle.polkatool_cmd.specs.Statuses.{status_number};

/// How a command ended.
#[derive(Clone, Copy, Debug, PartialEq, Eq)]
pub enum Status {
    /// The work is done.
    Done,
    /// The file that was read has a fault. The line on err says which, and where.
    Refused,
    /// The arguments are a usage error.
    Usage,
    /// A call outside failed, or a file is missing.
    FileFault,
    /// The program panicked.
    Panicked,
    /// The program met a page fault.
    Faulted,
    /// The program used up its gas.
    OutOfGas,
    /// The program made a host call for which no reply was left.
    Unanswered,
    /// A reply was to be written where the program can't write.
    BadReply,
    /// An allocation failed.
    Memory,
}

impl Status {
    /// The exit status of the process: 0 for `Done`, and so on in the order of the variants.
    pub fn number(self) -> u8
        ensures { result ≡ status_number self }
    {
        self as u8
    }
}
