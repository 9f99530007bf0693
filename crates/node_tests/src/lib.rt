//! Tests of a node whose workers run in threads of their own, on a plain board behind its lock and on a board of words, where there is little
//! room: slots for two tasks, inboxes of one letter, room for one ban. They stand in a crate of their own, since a crate with tests is proved
//! twice.
#![tactic(auto)]

#[cfg(test)]
mod boards;
#[cfg(test)]
mod commands;
#[cfg(test)]
mod driver;
#[cfg(test)]
mod node;
#[cfg(test)]
mod tests;
