//! The state of the serial world and its single moves: a message reaches its node, a task makes a step, a listing marks a child, a mark is made.
//!
//! Each move appends its event, with the answers that come due with it, and leaves the tables saying of the past what they should.
#![tactic(auto)]

pub mod answers;
pub mod append;
pub mod asks;
pub mod bans;
pub mod clock;
pub mod counts;
pub mod ends;
pub mod flight;
pub mod listings;
pub mod marks;
pub mod pages;
pub mod passing;
pub mod performing;
pub mod purging;
pub mod requests;
pub mod rows;
mod sending;
pub mod starting;
pub mod state;
pub mod turns;
