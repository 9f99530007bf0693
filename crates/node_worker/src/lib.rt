//! The work of a node's workers, which is the same for each kind of them.
//!
//! A worker takes letters from its inbox, does a turn with each and steps of its own, and sends what these give. What a
//! turn or a step is, a kind of worker says: it is [`Turns`]. A [`Worker`] is the job that runs it in a thread. Its letters
//! go out in the order in which its turns gave them: where an inbox is full, they are kept and sent first of all, and it
//! takes letters meanwhile. A letter that says Stop stops it. One whose turn or step fails tells the driver, and passes letters
//! over until one says Stop.
#![tactic(auto)]

mod control;
mod control_posts;
mod control_state;
mod control_turns;
mod desk;
mod flush;
mod halt;
mod left;
mod post;
mod rounds;
mod standby;
mod turns;
mod worker;

pub use control::ControlKind;
pub use post::Post;
pub use turns::Turns;
pub use worker::{Rest, Worker, WorkerOut};
