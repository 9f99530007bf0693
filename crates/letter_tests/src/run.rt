//! The name of a run over a script.
ghost use Rattle.std.specs.Prelude.{ℕ};
ghost use Rattle.task_ids.specs.Limits.{IsCancel};

use node_link::RunName;
use std::marker::PhantomData;
use task_ids::BoardName;

/// A script, of which a proof knows which numbers are those of its cancellations.
pub trait Script {
    ghost cancels: { ℕ → Type 0 };
}

/// The name of a run of a script. Its boards may be told of the cancellations of the script alone. That these are in range is part of
/// it, so what a board answers may stand in a letter.
pub struct RunOf<W> {
    of: PhantomData<W>,
}

impl<W: Script> BoardName for RunOf<W> {
    ghost allowed = { λ cancel. IsCancel cancel × W.cancels cancel };
}

impl<W: Script> RunName for RunOf<W> {
    ghost asks = { λ _. Unit {0} };
}
