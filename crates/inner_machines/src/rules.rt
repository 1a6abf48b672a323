ghost use Rattle.inner_machines.specs.CallRules.{CallsAnswerWell, CallsPanic};

use pvm_machine::steps_stay_within;

/// The calls on inner machines keep the rules of hosts: registers stay words, the heap's bound stays, and the limit of the
/// calling machine's pages and the pages of the inner machines are 131,072 together.
pub fn calls_answer_well()
    ensures { CallsAnswerWell }
{
    steps_stay_within();
}

/// A call on inner machines that ends the run ends it by a panic.
pub fn calls_panic()
    ensures { CallsPanic }
{}
