ghost use Rattle.pvm_ops.specs.Laws.{ReadsBack, MarksComeBack, StopsComeBack, MaskLength, MaskIsPadded};

/// An instruction that stands alone in a code is fetched as it was spelled.
pub fn reads_back()
    ensures { ReadsBack }
{}

/// The mask that marks are packed into has these marks.
pub fn marks_come_back()
    ensures { MarksComeBack }
{}

/// Operands end at the marks that a mask was packed from, and past the code.
pub fn stops_come_back()
    ensures { StopsComeBack }
{}

/// A mask has a byte for every eight marks, and one for those that are left.
pub fn mask_length()
    ensures { MaskLength }
{}

/// The bits of a mask past its marks are zero.
pub fn mask_is_padded()
    ensures { MaskIsPadded }
{}
