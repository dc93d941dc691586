//! What cells of the whole language mean, as definitions: a source, the bindings before it and a limit of
//! steps have one meaning, with what is printed, a value or a fault, the steps used and the bindings made.
//!
//! What the layer above may rely on: the relation of `specs/Means`, which the evaluator is to meet, and
//! the [`laws`] of it. There is no other code.
#![tactic(auto)]

ghost use Rattle.ex_meaning.specs.Laws.{BlocksKeepBindings, FaultsMakeNothing, PrintsFit, RightIsSkipped, StatesFollow, StepsFit, TooManyAreAll};

/// The laws of evaluations. The call does nothing.
pub fn laws()
    ensures steps_fit { StepsFit }
    ensures prints_fit { PrintsFit }
    ensures too_many_are_all { TooManyAreAll }
    ensures faults_make_nothing { FaultsMakeNothing }
    ensures states_follow { StatesFollow }
    ensures blocks_keep_bindings { BlocksKeepBindings }
    ensures right_is_skipped { RightIsSkipped }
{}
