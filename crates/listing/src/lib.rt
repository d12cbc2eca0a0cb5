// A whole script: the header, the end of the input, and a script run wholly into a lent slice.
#![tactic(auto)]

pub mod listing;
pub mod script;
