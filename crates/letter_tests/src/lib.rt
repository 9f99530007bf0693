//! What letters give to those who take them, over a board and a core of cancellations: that what a letter's type keeps meets the
//! conditions of the calls, and that what a board answers may stand in a letter again. The tests of these calls stand here too, and those of inboxes,
//! since a crate with tests is proved twice.
#![tactic(auto)]

mod control;
mod data;
#[cfg(test)]
mod inboxes;
mod run;
#[cfg(test)]
mod tests;

pub use control::{begin_cancel, put_ban};
pub use data::{matches_of, refusal};
pub use run::{RunOf, Script};
