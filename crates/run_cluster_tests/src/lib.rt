//! Tests of clusters of one to four nodes whose workers run in threads of their own. They stand in a crate of their own, since a crate with
//! tests is proved twice.
#![tactic(auto)]

#[cfg(test)]
mod drivers;
#[cfg(test)]
mod tests;
