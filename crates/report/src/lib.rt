// How many stored listings agree, and the report that the program `replay` prints of them.
#![tactic(auto)]

pub mod report;
pub mod tally;
