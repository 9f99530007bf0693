//! The lines of a script's output: one line of JSON a command, after Elasticsearch's REST replies.
#![tactic(auto)]

mod cancel_lines;
mod ends;
mod errors;
mod known;
mod laws;
mod lines;
mod list_lines;
mod members;
mod moves;
mod note;
mod print;
mod reindex_lines;
mod replied;
mod reply;
mod result_lines;
mod run;
mod scroll_lines;
mod searches;
mod summaries;
mod told;
mod turns;
mod write;

pub use known::indices_of;
pub use laws::{list_is_a_reply, live_task_is_a_reply};
pub use lines::print_lines;
pub use note::Note;
pub use replied::print_reply;
pub use reply::LineReply;
