// The ends of an inbox.
ghost use Rattle.std.specs.Prelude.{true, ◌≡◌, length};
ghost use Rattle.crossbeam_channel.specs.Claims.{view, IsSeatAt};
ghost use Rattle.crossbeam_channel.specs.Ends.{sends_on, receives_on};

use crate::steps::{Badge, Mouth, Port};

mod calls;

pub use calls::inbox;

/// One end of an inbox, which sends. A proof knows what it sent so far, in order.
#[derive(Drop)]
pub struct Sender<L: Drop> {
    port: Port<L>,
    pass: Badge<L>,
    // Its number among the senders of the inbox, from 0.
    number: u32,
    sent: u64,
    ghost seated: { IsSeatAt (sends_on port) pass },
    ghost mine: { ((view pass).sends ≡ true) × ((view pass).from ≡ number) },
    ghost counted: { sent ≡ length (view pass).put },
}

/// The end of an inbox that takes. A proof knows what it took so far, in order, and from which sender each letter came.
#[derive(Drop)]
pub struct Receiver<L: Drop> {
    mouth: Mouth<L>,
    pass: Badge<L>,
    taken: u64,
    ghost seated: { IsSeatAt (receives_on mouth) pass },
    ghost mine: { (view pass).gets ≡ true },
    ghost counted: { taken ≡ length (view pass).got },
}

/// What a sender leaves when it has sent all that it will: its end of the channel, which keeps the channel open, and
/// what a proof knows of what it sent.
#[derive(Drop)]
pub struct SenderEnd<L: Drop> {
    port: Port<L>,
    pass: Badge<L>,
    number: u32,
    sent: u64,
    ghost seated: { IsSeatAt (sends_on port) pass },
    ghost mine: { ((view pass).sends ≡ true) × ((view pass).from ≡ number) },
    ghost counted: { sent ≡ length (view pass).put },
}

/// How many letters were sent into an inbox, by all its senders, and how many were taken out of it.
#[derive(Clone, Copy, Debug, PartialEq, Eq)]
pub struct Tally {
    /// The letters that were sent.
    pub sent: u64,
    /// The letters that were taken.
    pub taken: u64,
}

/// A letter that the inbox had no room for.
#[derive(Drop)]
pub struct Back<L>(pub L);
