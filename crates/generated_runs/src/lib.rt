//! What the link makes of a generated object, and how its program runs.
//!
//! Each function below does nothing: its contract is a law. `specs/Operations.antt` says which operations a generated
//! text has, and `specs/Inputs.antt` what the link of a generated object is given. `specs/Lifted.antt` has its operations in
//! code order, `specs/Program.antt` the program, and `specs/Runs.antt` how that runs.
#![tactic(auto)]

ghost use Rattle.generated_runs.specs.Laws.{TextsAreOperations, GeneratedIsGiven, NothingIsListed, GeneratedIsLifted, WordsAreInstructions, GeneratedIsLowered, GeneratedHasNoFault, GeneratedHalts, GeneratedComputes};

#[cfg(test)]
mod tests;

use generated::{objects_are_spelled, words_are_operations};
use jump_table::code_is_placed;
use lift_blocks::lifted_is_one;
use lower::{blocks_are_implemented, operations_are_implemented};
use machine_state::start_is_good;
use pvm_machine::effects_keep_targets;

/// The decoder reads each word of a generated text as the operation meant.
pub fn texts_are_operations()
    ensures { TextsAreOperations }
{
    words_are_operations();
}

/// The link of a generated object is given the object meant.
pub fn generated_is_given()
    ensures { GeneratedIsGiven }
{
    objects_are_spelled();
}

/// No fault of a generated object is listed.
pub fn nothing_is_listed()
    ensures { NothingIsListed }
{
    objects_are_spelled();
    texts_are_operations();
}

/// The operations of a generated object in code order are those of its text.
pub fn generated_is_lifted()
    ensures { GeneratedIsLifted }
{
    texts_are_operations();
}

/// Each operation of a generated text is one instruction, and none is a constant that others could join.
pub fn words_are_instructions()
    ensures { WordsAreInstructions }
{}

/// The program of a generated object is one block, with an instruction for each word.
pub fn generated_is_lowered()
    ensures { GeneratedIsLowered }
{}

/// A generated object is linked, unless an allocation fails.
pub fn generated_has_no_fault()
    ensures { GeneratedHasNoFault }
{
    generated_is_given();
    nothing_is_listed();
    generated_is_lifted();
    generated_is_lowered();
    lifted_is_one();
}

/// The program of a generated object halts with all of its gas spent: one for each word, one for the entry's jump and one for
/// the return.
pub fn generated_halts()
    ensures { GeneratedHalts }
{
    generated_is_given();
    generated_is_lifted();
    words_are_instructions();
    generated_is_lowered();
    lifted_is_one();
    blocks_are_implemented();
    operations_are_implemented();
    code_is_placed();
    effects_keep_targets();
    start_is_good();
}

/// The program of a generated object halts with what its operations leave, one after another, from the standard start.
pub fn generated_computes()
    ensures { GeneratedComputes }
{
    generated_is_given();
    generated_is_lifted();
    words_are_instructions();
    generated_is_lowered();
    lifted_is_one();
    blocks_are_implemented();
    operations_are_implemented();
    code_is_placed();
    effects_keep_targets();
    start_is_good();
}
