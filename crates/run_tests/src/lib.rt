//! Tests of scripts that run over threads, by the call that the word `run` makes: where a node is held while a cancel goes on, where calls
//! of the outside fail, and where many commands go out at once. They stand in a crate of their own, since a crate with tests is proved
//! twice.
#![tactic(auto)]

#[cfg(test)]
mod inputs;
#[cfg(test)]
mod runs;
#[cfg(test)]
mod tests;
