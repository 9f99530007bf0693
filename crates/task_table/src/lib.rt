//! The table of a node's live tasks: who runs, under which number, for whom, and which cancellation marked it.
#![tactic(auto)]

mod answers;
mod ended;
mod rows;
mod table;
mod ticket;

pub use answers::{Check, Full, NoRoom, Track};
pub use ended::{Ended, MarkAnswer, PutError};
pub use table::TaskTable;
pub use ticket::Ticket;
