// The names of boards.
ghost use Rattle.std.specs.Prelude.{ℕ};
ghost use Rattle.task_ids.specs.Limits.{IsCancel};

use std::marker::Brand;

/// The name of a board on which a node's tasks and bans stand. It has no bytes, and a proof knows by it which
/// cancellations the board may be told of.
pub trait BoardName {
    /// The board may be told of the cancellation of this number.
    ghost allowed: { ℕ → Type 0 };
}

/// The name of a board that may be told of each cancellation, 1 to 65,535.
pub struct AnyCancel;

impl BoardName for AnyCancel {
    ghost allowed = { IsCancel };
}

impl BoardName for Brand {
    ghost allowed = { IsCancel };
}
