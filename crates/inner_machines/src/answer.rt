/// What came of a call on inner machines.
#[derive(Clone, Copy, Debug, PartialEq, Eq)]
pub enum Served {
    /// It was served, and its result is in register 7.
    Done,
    /// It ends the program by a panic, and nothing changed.
    Panic,
    /// It asks for more gas than is left, and nothing changed.
    OutOfGas,
    /// The number is of no such call, and nothing changed.
    NotMine,
    /// An allocation failed, and nothing changed.
    Memory,
}
