/// Why bytes are no program, or no container: the first that is met from left to right.
#[derive(Clone, Copy, Debug, PartialEq, Eq)]
pub enum BlobFault {
    /// The bytes end before a field is whole.
    Truncated,
    /// A natural is spelled in more bytes than its number takes.
    Overlong,
    /// An entry of the jump table would take more than eight bytes, or none though there are entries.
    BadWidth,
    /// A bit of the mask is set past the code.
    BadPadding,
    /// Bytes are left after the last field.
    LeftOver,
}
