//! What is known of a run by the types of its letters, boards and cores.
#![tactic(auto)]

mod inboxes;

pub use inboxes::{control_of, driver_of, inbox_of, inboxes_are_apart};
use node_link::RunName;
use std::marker::{Brand, PhantomData};
use task_ids::{AnyCancel, BoardName};

/// What a run is over. A program picks one where it begins, and the types below keep it.
pub trait Run {
    ghost use Rattle.std.specs.Prelude.{ℕ};
    ghost use Rattle.reply_facts.specs.Settings.{Setting};

    /// The run has a cancellation of this number.
    ghost cancels: { ℕ → Type 0 };

    /// Its documents, which indices it writes, and what its searches look for.
    ghost setting: { Setting };
}

/// A run of direct calls, which has each cancellation. Nothing else is known of it.
impl Run for AnyCancel {
    ghost use Rattle.reply_facts.specs.Settings.{unknown};

    ghost cancels = { λ _. Unit {0} };

    ghost setting = { unknown };
}

/// A run of which nothing is known but that its cancellations are in range.
impl Run for Brand {
    ghost use Rattle.reply_facts.specs.Settings.{unknown};

    ghost cancels = { λ _. Unit {0} };

    ghost setting = { unknown };
}

/// The name of a run, as its boards and letters have it. It has no bytes.
pub struct Of<W> {
    of: PhantomData<W>,
}

/// Its boards may be told of the run's cancellations, which are numbered from 1 to 65,535.
impl<W: Run> BoardName for Of<W> {
    ghost use Rattle.run_facts.specs.Cancels.{cancels_of};

    ghost allowed = { cancels_of W.cancels };
}

/// Its letters tell plainly what is asked, and what is replied by its documents.
impl<W: Run> RunName for Of<W> {
    ghost use Rattle.reply_facts.specs.Letters.{TellsPlainly};

    ghost asks = { TellsPlainly W.setting };
}

/// The worker into whose inbox a letter goes, or the driver.
#[derive(Clone, Copy, Debug, PartialEq, Eq)]
pub enum To {
    /// The control worker of this node, from 1 to 15.
    Control(u32),
    /// A data worker of a node: the node, from 1 to 15, and the worker, from 0 to 3.
    Data { node: u32, worker: u32 },
    /// The driver of the run.
    Driver,
}

/// A letter that a worker sends, with its address.
#[derive(Drop)]
pub struct Post<L> {
    pub to: To,
    pub letter: L,
}
