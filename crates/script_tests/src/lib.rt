//! Tests of single calls: of the reading of scripts and of the bodies of reindexes, and of what roots are asked to do.
//! They stand in a crate of their own, since a crate with tests is proved twice.
#![tactic(auto)]

#[cfg(test)]
mod reindexes;
#[cfg(test)]
mod results;
#[cfg(test)]
mod roots;
#[cfg(test)]
mod scripts;
