//! The laws of generated objects.

ghost use Rattle.generated.specs.Laws.{WordsAreOperations};
ghost use Rattle.generated.specs.Spelled.{ObjectsAreSpelled};

/// The decoder reads each word of a text as the operation of its kind, and the last as a return.
pub fn words_are_operations()
    ensures { WordsAreOperations }
{}

/// A generated object has no fault, and is read as a section of code with the text and its one symbol `main`.
pub fn objects_are_spelled()
    ensures { ObjectsAreSpelled }
{}
