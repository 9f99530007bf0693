//! What a task remembers of the children that it asked for: the asks that are still unanswered, and the
//! cancellation after which it asks for no more.
#![tactic(auto)]

mod nodes;
mod receipt;
mod token;
mod track;

pub use nodes::NodeSet;
pub use receipt::{Receipt, Stranger};
pub use token::AskToken;
pub use track::{AskError, ChildTrack};
