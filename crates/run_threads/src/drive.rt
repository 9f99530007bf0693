// Drivers.
ghost use Rattle.std.specs.Prelude.{OnOk};
ghost use Rattle.run_inboxes.specs.Ends.{SameEnds};

use node_link::{Letter, RunName};
use run_inboxes::Ends;
use std::sync::Wait;
use task_events::Stop;

/// What is done while the workers run.
pub trait Drive<N: RunName> {
    /// What it has done where it comes back with every answer: the driver before it and after it.
    ghost done: { Self → Self → Type 0 };

    /// Sends letters to the workers and takes theirs. The inboxes are numbered by the nodes: for each first that of its control worker,
    /// and then those of its data workers. The driver's is the last.
    ///
    /// It comes back once it has every answer, and the workers are told to leave after that. Where it fails, or a letter tells that a
    /// worker has stopped, it comes back with that cause, and the workers are told to stop.
    fn drive<R: Wait>(&mut self, rt: &R, ends: &mut Ends<Letter<N>>) -> Result<(), Stop>
        ensures same { SameEnds ends.old ends.new }
        ensures done { OnOk result (done self.old self.new) };
}
