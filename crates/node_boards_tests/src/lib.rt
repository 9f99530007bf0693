//! Tests of a node's boards. One play goes through the traits, on a plain board and on a race board, and two threads share
//! a plain board. They stand in a crate of their own, since a crate with tests is proved twice.
#![tactic(auto)]

#[cfg(test)]
mod play;
#[cfg(test)]
mod tests;
#[cfg(test)]
mod threads;
