//! Tests of control workers in threads of their own, over a plain board and over a race board. The test is the driver, and has the
//! data seat of the node's board. They stand in a crate of their own, since a crate with tests is proved twice.
#![tactic(auto)]

#[cfg(test)]
mod ends;
#[cfg(test)]
mod plays;
#[cfg(test)]
mod tests;
#[cfg(test)]
mod threads;
