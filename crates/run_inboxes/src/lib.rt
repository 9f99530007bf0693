//! The inboxes of a cluster, each of which has a sender for each who has ends of them.
//!
//! [`inboxes`] makes them all, and [`close_all`] closes them all, with what each sender left.
#![tactic(auto)]

mod closing;
mod ends;
mod opening;
mod transpose;

pub use closing::close_all;
pub use ends::Ends;
pub use opening::inboxes;
