//! Tests of single calls: of ids, tracks, tables, bans, cancellations, contexts and lists, and of what no run of the program shows.
//! They stand in a crate of their own, since a crate with tests is proved twice.
#![tactic(auto)]

#[cfg(test)]
mod acknowledgements;
#[cfg(test)]
mod bans;
#[cfg(test)]
mod bytes;
#[cfg(test)]
mod cancels;
#[cfg(test)]
mod contexts;
#[cfg(test)]
mod histories;
#[cfg(test)]
mod ids;
#[cfg(test)]
mod lists;
#[cfg(test)]
mod tables;
#[cfg(test)]
mod tracks;
#[cfg(test)]
mod waits;
