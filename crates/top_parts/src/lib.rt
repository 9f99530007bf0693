//! What the top calls have in common: how an input is read, and how a call ends.
#![tactic(auto)]

mod reading;
mod status;

pub use reading::{MAX_INPUT, Unread, read_input, read_whole};
pub use status::Status;
