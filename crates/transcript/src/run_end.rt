/// How a run ended.
#[derive(Clone, Copy, Debug, PartialEq, Eq)]
pub enum RunEnd {
    /// The program returned.
    Halt,
    /// It panicked.
    Panic,
    /// It accessed the page at this address, which it may not.
    Fault(u32),
    /// It used up its gas.
    OutOfGas,
    /// It made the call with this number when no reply was left.
    Unanswered(u64),
    /// The reply on this line writes to this address, which may not be written.
    BadReply { line: u32, address: u64 },
}
