// What is claimed of runs of the exported calls that a kernel links: the statements and their proofs are in the crate
// definition_runs. That each contract in crates/host/src is the premise of its case there is in proofs/Contracts.
#![tactic(auto)]

ghost use Rattle.definition_runs.specs.Exported.{ExportedClaims};

// Its contract is all that is claimed, so that to prove this crate is to prove every claim. It does nothing.
pub fn hold()
    ensures { ExportedClaims }
{}
