// The call that a record of a script makes: its fields, the call by its tag, the memory that a fill and a read write.
#![tactic(auto)]

pub mod call;
pub mod delivered;
pub mod fill;
pub mod lent;
pub mod plain_call;
pub mod record;
