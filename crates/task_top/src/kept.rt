use script_lang::Script;
use std::alloc::Global;
use task_events::History;
use task_ids::{Corpus, Items};

/// What a call of `sim_top` read and what happened in it. All three are empty where reading was refused.
#[derive(Drop)]
pub struct Kept {
    pub corpus: Corpus,
    pub script: Script,
    pub history: History,
}

impl Kept {
    ghost use Rattle.task_top.specs.Kept.{IsNothing};

    /// Nothing was read and nothing happened.
    pub fn nothing(alloc: Global) -> Kept
        ensures { IsNothing result }
    {
        let lines = Items::new(alloc);
        let commands = Items::new(alloc);
        Kept {
            corpus: Corpus { lines },
            script: Script { commands },
            history: History::new(alloc),
        }
    }
}
