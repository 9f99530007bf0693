//! Tests of the job that runs a worker. They stand in a crate of their own, since a crate with tests is proved twice.
#![tactic(auto)]

#[cfg(test)]
mod echo;
#[cfg(test)]
mod order;
#[cfg(test)]
mod tests;
