// The answers of disposition, info and wait: their tests in their order, over both ends of a pair without its table of places. After `Socket` of
// ipc/socket.rs.

mod disposition;
mod info;
mod wait;

pub use disposition::dispose_answer;
pub use info::info_answer;
pub use wait::wait_answer;
