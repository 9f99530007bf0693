// What a run over threads leaves.
use run_book::LineNote;
use run_cluster::NodeNote;
use script_lang::Script;
use std::alloc::Global;
use task_ids::{Corpus, Items};

/// What a call of `run_top` or `pool_top` read, and what came of it. All four are empty where reading was refused, and the notes also where the run came to an
/// early end.
#[derive(Drop)]
pub struct RunKept {
    /// The documents of the input.
    pub corpus: Corpus,
    /// The commands of the input.
    pub script: Script,
    /// What each command came to, in order.
    pub lines: Items<LineNote>,
    /// What was left of each node, from 1 on, as its workers had ended.
    pub nodes: Items<NodeNote>,
}

impl RunKept {
    ghost use Rattle.std.specs.Prelude.{◌≡◌};
    ghost use Rattle.run_top.specs.Kept.{IsNothing, IsUnrun};

    /// What was read, where nothing came of it.
    pub(crate) fn unrun(alloc: Global, corpus: Corpus, script: Script) -> RunKept
        ensures corpus { result.corpus ≡ corpus }
        ensures script { result.script ≡ script }
        ensures unrun { IsUnrun result }
    {
        RunKept {
            corpus,
            script,
            lines: Items::new(alloc),
            nodes: Items::new(alloc),
        }
    }

    /// Nothing was read, and nothing ran.
    pub(crate) fn nothing(alloc: Global) -> RunKept
        ensures { IsNothing result }
    {
        let lines = Items::new(alloc);
        let commands = Items::new(alloc);
        RunKept::unrun(alloc, Corpus { lines }, Script { commands })
    }
}
