//! The commands that wait for tasks to end.
ghost use Rattle.std.specs.Prelude.{◌≡◌, ◌<◌, ◌∷◌, [], ◌++◌, All, OnOk, OnErr};
ghost use Rattle.std.specs.FinMap as finite;
ghost use Rattle.std.specs.List.Sorted.{IsStrictlyIncreasing};
ghost use Rattle.task_results.specs.Results.{waiting_for};

use std::alloc::{AllocError, Global};
use std::collections::BTreeMap;
use std::marker::Model;
use task_ids::{Items, TaskId};

/// The commands that wait for tasks to end. Contracts see a map from those tasks to their commands, which ascend.
#[derive(Drop)]
pub(crate) struct Waits {
    alloc: Global,
    commands: BTreeMap<TaskId, Items<u32>>,
}

impl Model for Waits {
    ghost use Rattle.std.specs.Prelude.{ℕ, List, IfSome};
    ghost use Rattle.std.specs.BTreeMap as tree;
    ghost use Rattle.std.specs.Coded.{coded_ℕ, coded_list};
    ghost use Rattle.std.specs.FinMap as finite;
    ghost use Rattle.std.specs.List.Sorted.{IsStrictlyIncreasing};
    ghost use Rattle.task_ids.specs.TaskIdOrder.{task_id_cmp, coded_task_id};
    ghost use Rattle.task_ids.specs.declared.task_id.TaskId.{TaskId};

    ghost Value = { finite.FinMap task_id_cmp (List ℕ) };

    ghost coded = { finite.code coded_task_id (coded_list coded_ℕ) };

    ghost view = { λ a. finite.from_entries a.commands.entries };

    ghost invariant = { λ a. (id : TaskId) → IfSome (tree.get task_id_cmp a.commands id) IsStrictlyIncreasing };
}

impl Waits {
    /// No command waits, which takes no memory.
    pub(crate) fn new(alloc: Global) -> Waits
        ensures { result ≡ finite.empty }
    {
        Waits {
            alloc,
            commands: BTreeMap::new(alloc),
        }
    }

    /// One more command waits for a task. Where memory runs out nothing has changed.
    pub(crate) fn add(&mut self, id: TaskId, command: u32) -> Result<(), AllocError>
        requires { All (λ k. k < command) (waiting_for id self.old) }
        ensures ok { OnOk result (self.new ≡ finite.insert self.old id (waiting_for id self.old ++ command ∷ [])) }
        ensures err { OnErr result (self.new ≡ self.old) }
    {
        if let Some(waiting) = self.commands.get_mut(&id) {
            waiting.push(command)?;
            return Ok(());
        }
        let mut waiting = Items::new(self.alloc);
        waiting.push(command)?;
        self.commands.insert(id, waiting)?;
        Ok(())
    }

    /// Takes those away that wait for a task, ascending. It takes no memory.
    pub(crate) fn take(&mut self, id: TaskId) -> Vec<u32>
        ensures waited { result.items ≡ waiting_for id self.old }
        ensures ascending { IsStrictlyIncreasing result.items }
        ensures gone { self.new ≡ finite.remove self.old id }
    {
        self.commands
            .remove(&id)
            .unwrap_or(Items::new(self.alloc))
            .into_vec()
    }
}
