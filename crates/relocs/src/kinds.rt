ghost use Rattle.std.specs.Prelude.{◌≡◌};
ghost use Rattle.relocs.specs.Kinds.{kind_of as the_kind};

/// What a relocation changes, by the number of its type (RISC-V ELF psABI, "Relocations"). NONE, RELAX and ALIGN, which
/// change nothing, are among the others.
#[derive(Clone, Copy, Debug, PartialEq, Eq)]
pub enum Kind {
    /// BRANCH: the target of a branch.
    Branch,
    /// JAL: the target of a `jal`.
    Jal,
    /// CALL and CALL_PLT: the target of an `auipc` and the `jalr` after it.
    Call,
    /// GOT_HI20: the upper part of a slot's address, in an `auipc`.
    GotHigh,
    /// PCREL_HI20: the upper part of a value, in an `auipc`.
    PcHigh,
    /// PCREL_LO12_I: the lower part of the value of an `auipc`, in an operation with an immediate.
    PcLow,
    /// PCREL_LO12_S: the same in a store.
    PcLowStore,
    /// HI20: the upper part of a value, in a `lui`.
    High,
    /// LO12_I: the lower part of a value, in an operation with an immediate.
    Low,
    /// LO12_S: the same in a store.
    LowStore,
    /// 32: a value in 4 bytes of data.
    Set32,
    /// 64: a value in 8 bytes of data.
    Set64,
    /// ADD8 to ADD64: a value is added to the given number of bytes of data.
    Add(u8),
    /// SUB8 to SUB64: a value is subtracted from the given number of bytes of data.
    Subtract(u8),
    /// 32_PCREL: how far a value is from its own place, in 4 bytes of data.
    Distance,
    /// None of these.
    Other,
}

/// What a relocation changes, by the number of its type.
#[tactic(auto, unfolding(crate::specs::Kinds::kind_of))]
pub fn kind_of(kind: u32) -> Kind
    ensures { result ≡ the_kind kind }
{
    match kind {
        16 => Kind::Branch,
        17 => Kind::Jal,
        18 | 19 => Kind::Call,
        20 => Kind::GotHigh,
        23 => Kind::PcHigh,
        24 => Kind::PcLow,
        25 => Kind::PcLowStore,
        26 => Kind::High,
        27 => Kind::Low,
        28 => Kind::LowStore,
        1 => Kind::Set32,
        2 => Kind::Set64,
        33 => Kind::Add(1),
        34 => Kind::Add(2),
        35 => Kind::Add(4),
        36 => Kind::Add(8),
        37 => Kind::Subtract(1),
        38 => Kind::Subtract(2),
        39 => Kind::Subtract(4),
        40 => Kind::Subtract(8),
        57 => Kind::Distance,
        _ => Kind::Other,
    }
}
