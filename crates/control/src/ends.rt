// Shutdown and close over both ends of a pair: each is tested, then changes the two ends, and the waits are visited later. Also one change of an
// end's word, which disposition and the thresholds share (modules disposition and threshold). After `Socket` of ipc/socket.rs.

mod change;
mod close;
mod shutdown;

pub use change::{bit_visit, changed_end, first_only, put_both, with_visits};
pub use close::close_ends;
pub use shutdown::shutdown_ends;
