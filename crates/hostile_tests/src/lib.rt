//! Tests of hostile use, over memory: inputs in pieces, reads and writes that fail, inputs that are refused, and runs that come to an early
//! end. They stand in a crate of their own, since a crate with tests is proved twice.
#![tactic(auto)]

#[cfg(test)]
mod faulty;
#[cfg(test)]
mod first;
#[cfg(test)]
mod full;
#[cfg(test)]
mod runs;
