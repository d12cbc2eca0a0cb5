// The calls that move no byte, over both ends: shutdown and close, disposition, both thresholds.
#![tactic(auto, unfolding(crate::proofs::Opened::control_opened), using(crate::proofs::ends::Outcomes::outcomes))]

pub mod disposition;
pub mod ends;
pub mod threshold;
