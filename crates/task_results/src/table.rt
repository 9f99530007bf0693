ghost use Rattle.std.specs.Prelude.{◌≡◌, ◌<◌, ◌∷◌, [], ◌++◌, All, None, is_some, IfOk, IsOk, OnOk, OnErr, option_copied};
ghost use Rattle.std.specs.BTreeMap as tree;
ghost use Rattle.std.specs.BTreeMap.{IsOrdered};
ghost use Rattle.std.specs.FinMap as finite;
ghost use Rattle.std.specs.List.Sorted.{IsStrictlyIncreasing};
ghost use Rattle.task_ids.specs.TaskIdOrder.{task_id_cmp};
ghost use Rattle.task_results.specs.Results.{no_results, waiting_for};

use crate::waits::Waits;
use std::alloc::{AllocError, Global};
use std::collections::BTreeMap;
use std::marker::Model;
use task_events::Reply;
use task_ids::TaskId;

/// The results of ended tasks, and who waits for a task to end. Contracts see two maps by task: the replies that stand, and the commands
/// that wait.
#[derive(Drop)]
pub struct ResultTable {
    alloc: Global,
    kept: BTreeMap<TaskId, Reply>,
    waits: Waits,
}

impl Model for ResultTable {
    ghost use Rattle.std.specs.FinMap as finite;
    ghost use Rattle.task_results.specs.Results.{Results, coded_results};

    ghost Value = { Results };

    ghost coded = { coded_results };

    ghost view = { λ a. record { kept = finite.from_entries a.kept.entries; waiting = a.waits } };
}

impl ResultTable {
    /// No result stands and no command waits, which takes no memory.
    pub fn new(alloc: Global) -> ResultTable
        ensures { result ≡ no_results }
    {
        ResultTable {
            alloc,
            kept: BTreeMap::new(alloc),
            waits: Waits::new(alloc),
        }
    }

    /// The reply of a task is its result from now on. Where memory runs out nothing has changed.
    pub fn store(&mut self, id: TaskId, reply: Reply) -> Result<(), AllocError>
        requires { finite.get self.old.kept id ≡ None }
        ensures ok { OnOk result (self.new ≡ record self.old { kept = finite.insert self.old.kept id reply }) }
        ensures err { OnErr result (self.new ≡ self.old) }
    {
        self.kept.insert(id, reply)?;
        Ok(())
    }

    /// The result of a task, where it stands.
    pub fn get(&self, id: TaskId) -> Option<&Reply>
        ensures { option_copied result ≡ finite.get self.now.kept id }
    {
        self.kept.get(&id)
    }

    /// Takes the result of a task away, and says whether it stood. It takes no memory.
    pub fn forget(&mut self, id: TaskId) -> bool
        ensures stood { result ≡ is_some (finite.get self.old.kept id) }
        ensures gone { self.new ≡ record self.old { kept = finite.remove self.old.kept id } }
    {
        self.kept.remove(&id).is_some()
    }

    /// The tasks whose results stand, ascending. It fails only for want of memory.
    pub fn list(&self) -> Result<Vec<TaskId>, AllocError>
        ensures { IfOk result (λ list. list.items ≡ finite.keys self.now.kept) }
    {
        listed(self.alloc, &self.kept)
    }

    /// A command waits for a task to end. It comes after those that wait for that task already. Where memory runs out nothing has changed.
    pub fn wait(&mut self, id: TaskId, command: u32) -> Result<(), AllocError>
        requires { All (λ k. k < command) (waiting_for id self.old.waiting) }
        ensures ok { OnOk result (self.new ≡ record self.old {
          waiting = finite.insert self.old.waiting id (waiting_for id self.old.waiting ++ command ∷ []);
        }) }
        ensures err { OnErr result (self.new ≡ self.old) }
    {
        self.waits.add(id, command)
    }

    /// The commands that waited for a task, ascending, which has ended. They wait no more. It takes no memory, so it does not fail.
    pub fn ended(&mut self, id: TaskId) -> Result<Vec<u32>, AllocError>
        ensures ok { IsOk result }
        ensures waited { IfOk result (λ commands. commands.items ≡ waiting_for id self.old.waiting) }
        ensures ascending { IfOk result (λ commands. IsStrictlyIncreasing commands.items) }
        ensures gone { self.new ≡ record self.old { waiting = finite.remove self.old.waiting id } }
    {
        Ok(self.waits.take(id))
    }
}

fn listed(alloc: Global, kept: &BTreeMap<TaskId, Reply>) -> Result<Vec<TaskId>, AllocError>
    ensures list { IfOk result (λ list. list.items ≡ tree.keys kept.now) }
    ensures ordered { IsOrdered task_id_cmp kept.now }
{
    kept.keys().copied().collect(alloc)
}
