//! Tests of single calls of tables: of results, and of points in time. They stand in a crate of their own, since a crate with tests is proved
//! twice.
#![tactic(auto)]

#[cfg(test)]
mod points;
#[cfg(test)]
mod results;
