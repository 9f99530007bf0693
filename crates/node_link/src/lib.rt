//! Inboxes, by which the threads of a run send letters to one another.
//!
//! An [`inbox`] has some senders and one receiver. Whatever the threads do, what the receiver took of one sender is a
//! beginning of what that sender sent, in its order and each letter once; where as many letters were taken as were
//! sent, it is all of them. [`Receiver::finish`] says so, once it has what each sender left. There is no order between
//! senders, and no clause says that a call returns.
//!
//! A [`Letter`] is what the threads of a run send. What it says is its [`Body`], and its type keeps facts of that: each number in it is
//! in range, each cancellation is one that the boards of the run may be told of, and what the run's name, a [`RunName`], asks besides.
#![tactic(auto)]

mod body;
mod ends;
mod letter;
mod name;
mod page;
mod rule;
mod steps;

pub use body::{Answered, Asked, Body, Place, RootAnswered, SentToken, Start};
pub use ends::{Back, Receiver, Sender, SenderEnd, Tally, inbox};
pub use letter::Letter;
pub use name::RunName;
pub use page::Page;
