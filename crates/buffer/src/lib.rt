// A script read into a buffer and fed from its front: the bytes moved to the front, the buffer's progress, and what the script program's two loops do.
#![tactic(auto)]

pub mod blocks;
pub mod buffer;
pub mod shift;
