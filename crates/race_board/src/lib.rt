//! One node's words: data seats register and check tasks, the control seat puts bans and marks, and no seat waits.
#![tactic(auto)]

mod asking;
mod banning;
mod board;
mod board_words;
mod closing;
mod control_steps;
mod data_steps;
mod laws;
mod living;
mod marking;
mod name;
mod opening;
mod plays;
mod registering;
mod rule;
mod seats;
mod views;
mod words;

pub use board::{BoardParts, RaceBoard};
pub use closing::Closed;
pub use laws::{children_stop, masks_hold, seen_at_a_moment};
pub use seats::{ControlSeat, DataSeat};
pub use task_ids::{AnyCancel, BoardName};
pub use task_table::{Check, Full, NoRoom, Track};
pub use views::{Ban, Did, Hold, Mask, Progress, Size, View};
