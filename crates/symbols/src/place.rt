/// What a symbol stands for.
#[derive(Clone, Copy, Debug, PartialEq, Eq, Hash)]
pub enum Place {
    /// An offset in bytes of a section of instructions.
    Code {
        object: u32,
        section: u32,
        offset: u64,
    },
    /// An offset in bytes of a loaded section of data.
    Bytes {
        object: u32,
        section: u32,
        offset: u64,
    },
    /// A definition that takes no part in the program.
    Unloaded,
    /// The import with this number in the list of wanted names, from 0.
    Import(u32),
    /// A number, which is no address.
    Number(u64),
    /// Nothing: a name that no object defines and that isn't imported.
    Absent,
}

/// What a name stands for where that has no place in an object.
#[derive(Clone, Copy, Debug, PartialEq, Eq)]
pub enum Answer {
    /// A number, which is no address.
    Number(u64),
    /// The import with this number in the list of wanted names, from 0.
    Import(u32),
}
