//! The book of a run over threads: what the driver knows of each command, what it sends for it, and what the command came to.
//!
//! Nothing here knows of threads. The driver begins the commands in the order of the script, sends the letters that each gives, and
//! tells the book each letter that it takes.
#![tactic(auto)]

mod begin;
mod book;
mod cancels;
mod contexts;
mod entry;
mod hear;
mod lists;
mod moments;
mod naming;
mod openers;
mod parts;
mod roots;
mod scrolls;
mod starts;
mod workers;

pub use book::{Book, Needs};
pub use entry::{LineNote, PageNote};
