// What is claimed of whole runs of calls: the statements and their proofs are in the crate definition_runs.
#![tactic(auto)]

ghost use Rattle.definition_runs.specs.Claims.{Claims};

// Its contract is all that is claimed, so that to prove this crate is to prove every claim. It does nothing.
pub fn hold()
    ensures { Claims }
{}
