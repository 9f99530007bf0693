//! Which searches opened the contexts.
ghost use Rattle.std.specs.Prelude.{◌≡◌, OnOk};
ghost use Rattle.std.specs.FinMap as finite;

use std::alloc::{AllocError, Global};
use std::collections::BTreeMap;
use std::marker::Model;
use task_ids::TaskId;

/// By the id of each context the number of the command whose search opened it. It keeps also those of contexts that are gone.
#[derive(Drop)]
pub(crate) struct Openers {
    numbers: BTreeMap<TaskId, u32>,
}

impl Model for Openers {
    ghost use Rattle.std.specs.Prelude.{ℕ};
    ghost use Rattle.std.specs.Coded.{coded_ℕ};
    ghost use Rattle.std.specs.FinMap as finite;
    ghost use Rattle.task_ids.specs.TaskIdOrder.{task_id_cmp, coded_task_id};

    ghost Value = { finite.FinMap task_id_cmp ℕ };

    ghost coded = { finite.code coded_task_id coded_ℕ };

    ghost view = { λ a. finite.from_entries a.numbers.entries };
}

impl Openers {
    /// No context yet, which takes no memory.
    pub(crate) fn new(alloc: Global) -> Openers
        ensures { result ≡ finite.empty }
    {
        Openers {
            numbers: BTreeMap::new(alloc),
        }
    }

    /// The search of a command opens the context of this id. It fails only for want of memory.
    pub(crate) fn note(&mut self, id: TaskId, command: u32) -> Result<(), AllocError>
        ensures { OnOk result (self.new ≡ finite.insert self.old id command) }
    {
        self.numbers.insert(id, command)?;
        Ok(())
    }

    /// The command whose search opened the context of this id, the last one where there were more.
    pub(crate) fn of(&self, id: TaskId) -> Option<u32>
        ensures { result ≡ finite.get self.now id }
    {
        self.numbers.get(&id).copied()
    }
}
