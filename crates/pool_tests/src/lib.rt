//! Tests of the sharing of a node among several data workers. They stand in a crate of their own, since a crate with tests is proved twice.
#![tactic(auto)]

#[cfg(test)]
mod pools;
