use elf_objects::Fault;

/// What a command came to.
#[derive(Clone, Copy, Debug, PartialEq, Eq)]
pub(crate) enum Answer {
    /// The work is done.
    Done,
    /// The program panicked, and its transcript was written.
    Panicked,
    /// The program met a page fault, and its transcript was written.
    Faulted,
    /// The program used up its gas, and its transcript was written.
    OutOfGas,
    /// The program made a host call for which no reply was left, and its transcript was written.
    Unanswered,
    /// A reply was to be written where the program can't write, and the transcript was written.
    BadReply,
    /// A file has this fault.
    Refused(Fault),
    /// The arguments are a usage error.
    Usage,
    /// A call outside failed, or a file is missing.
    FileFault,
    /// An allocation failed.
    Memory,
}
