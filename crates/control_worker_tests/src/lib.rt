//! Tests of a control worker's turns. The plays go through the trait of boards, on a plain board and on a race board. They
//! stand in a crate of their own, since a crate with tests is proved twice.
#![tactic(auto)]

#[cfg(test)]
mod bans;
#[cfg(test)]
mod cancels;
#[cfg(test)]
mod matches;
#[cfg(test)]
mod tests;
#[cfg(test)]
mod turns;
