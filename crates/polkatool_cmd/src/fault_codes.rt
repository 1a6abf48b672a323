//! The codes of faults that no crate below declares.

/// The codes of what keeps bytes from being a container, one for each `BlobFault`.
pub(crate) const TRUNCATED: u8 = 40;

pub(crate) const OVERLONG: u8 = 41;

pub(crate) const BAD_WIDTH: u8 = 42;

pub(crate) const BAD_PADDING: u8 = 43;

pub(crate) const LEFT_OVER: u8 = 44;

/// The code of a run with an argument of too many bytes.
pub(crate) const ARGUMENT_TOO_LARGE: u8 = 46;

/// The code of a program at whose entry no block starts.
pub(crate) const BAD_ENTRY: u8 = 47;

/// The code of a program at whose position 0 no block starts.
pub(crate) const NO_FIRST: u8 = 50;

/// The codes of what is wrong with an instruction of a program.
pub(crate) const UNKNOWN_OPCODE: u8 = 51;

pub(crate) const BAD_TARGET: u8 = 52;

/// The code of a jump table with an entry at whose position no block starts.
pub(crate) const BAD_TABLE_ENTRY: u8 = 53;

/// The code of a program whose last instruction ends no block.
pub(crate) const OPEN_END: u8 = 54;

/// The code of a line of replies that is none.
pub(crate) const BAD_REPLY_LINE: u8 = 60;

/// The code of a file with too many bytes.
pub(crate) const FILE_TOO_LARGE: u8 = 61;
