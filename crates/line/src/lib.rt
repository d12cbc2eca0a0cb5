// One line of the listing, and the line of the call that a record makes.
#![tactic(auto)]

pub mod call_line;
pub mod line;
