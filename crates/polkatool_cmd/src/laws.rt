//! The laws of what commands result in.

ghost use Rattle.polkatool_cmd.specs.Complete.{CommandsComplete};

use link_core::{first_fault_is_one, linked_is_one};

/// A command ends with the status of what it does, or an allocation failed: if the contents of files are known, if the files
/// that it reads are there and have no fault, and if no read, write or put failed.
pub fn commands_complete()
    ensures { CommandsComplete }
{
    first_fault_is_one();
    linked_is_one();
}
