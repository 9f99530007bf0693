//! Tests of single calls: of shards, and of the work of queries, fetches, pages, reindexes and their slices, and of updates by query.
//! They stand in a crate of their own, since a crate with tests is proved twice.
#![tactic(auto)]

#[cfg(test)]
mod candidates;
#[cfg(test)]
mod forgetting;
#[cfg(test)]
mod pages;
#[cfg(test)]
mod phases;
#[cfg(test)]
mod shards;
#[cfg(test)]
mod slices;
#[cfg(test)]
mod updates;
#[cfg(test)]
mod writes;
