ghost use Rattle.std.specs.Prelude.{◌≡◌, ◌++◌, ◌↔◌, true, false, Some, IsSome, Contains, IsTrue, is_some, IfOk, OnOk, OnErr, if◌then◌else◌};
ghost use Rattle.std.specs.Option.{ForSome, option_copied};
ghost use Rattle.std.specs.BTreeMap as tree;
ghost use Rattle.std.specs.BTreeMap.{is_at};
ghost use Rattle.std.specs.FinMap as finite;
ghost use Rattle.std.specs.List.Sorted.{IsNonDecreasingBy};
ghost use Rattle.task_ids.specs.Limits.{IsNode, IsCancel};
ghost use Rattle.task_ids.specs.TaskIdOrder.{task_id_cmp};
ghost use Rattle.task_ids.specs.declared.task_id.TaskId.{TaskId};
ghost use Rattle.child_track.specs.NodeSet.{nodes_of};
ghost use Rattle.cancel_core.specs.Cancellation.{Cancellation, with_ack, with_receipt, still_waiting, rest_of, WaitsWherePlaced};
ghost use Rattle.cancel_core.specs.Cancellations.{no_cancellations, has_entry, entry_of, with_entry};
ghost use Rattle.cancel_core.specs.Listings.{is_stopped, has_listing, with_listing, listing_act, left_by, leaving_acts};
ghost use Rattle.cancel_core.specs.Acts.{ban_acts, first_acts, begun, join_acts, joined_by, due_acts};
ghost use Rattle.cancel_core.specs.Stage.{seen};

use crate::act::{Act, Waiter};
use crate::due::{bans, due};
use crate::entry::Entry;
use crate::listings::Listings;
use crate::stage::Stage;
use child_track::{NodeSet, Receipt};
use std::alloc::{AllocError, Global};
use std::collections::BTreeMap;
use std::marker::Model;
use task_ids::TaskId;

/// The cancellations of one node's tasks, from the first cancel of a task until its bans are taken away.
///
/// A task's bans are placed once each banned node has acknowledged. Then each waiter without `wait` gets
/// `AnswerPlaced`. Once, besides, the task has ended, `SendUnban` goes to each banned node, each waiter with
/// `wait` gets `AnswerDone`, and the task's entry goes. At one step the unbans come first. Several answers come
/// by ascending number. A step finds its entry without a scan of the others.
///
/// A ban that this node was sent is acknowledged by `SendAck` once the children that it listed have stopped: each
/// has ended or has its own bans placed. It comes at once, or as the last act of the step at which the last of
/// them stops.
#[derive(Drop)]
pub struct CancelCore {
    alloc: Global,
    node: u32,
    entries: BTreeMap<TaskId, Entry>,
    listings: Listings,
}

impl Model for CancelCore {
    ghost use Rattle.cancel_core.specs.Cancellations.{Cancellations, coded_cancellations};
    ghost use Rattle.cancel_core.specs.Fields.{map_of, core_with};

    ghost Value = { Cancellations };

    ghost coded = { coded_cancellations };

    ghost view = { λ a. core_with a.node (map_of a.entries) a.listings };
}

impl CancelCore {
    /// The core of a node, with no cancellation yet. It takes no memory.
    pub fn new(alloc: Global, node: u32) -> CancelCore
        requires { IsNode node }
        ensures { result ≡ no_cancellations node }
    {
        CancelCore {
            alloc,
            node,
            entries: BTreeMap::new(alloc),
            listings: Listings::new(alloc),
        }
    }

    /// The node whose core this is.
    pub fn node(&self) -> u32
        ensures { result ≡ self.now.node }
    {
        self.node
    }

    /// Whether no cancellation is under way.
    pub fn is_idle(&self) -> bool
        ensures { IsTrue result ↔ ((task : TaskId) → has_entry self.now task ≡ false) }
    {
        self.entries.is_empty()
    }

    fn find(&self, task: &TaskId) -> Option<&Entry>
        ensures { option_copied result ≡ finite.get self.now.entries task.now }
    {
        self.entries.get(task)
    }

    /// Whether a cancellation of the task is under way.
    pub fn has(&self, task: TaskId) -> bool
        ensures { result ≡ has_entry self.now task }
    {
        self.entries.contains_key(&task)
    }

    /// Whether the node was banned for the task and has not acknowledged.
    pub fn awaits(&self, task: TaskId, from: u32) -> bool
        ensures { IsTrue result ↔ Contains (entry_of self.now task).awaited from }
    {
        match self.find(&task) {
            Some(entry) => entry.awaits(from),
            None => false,
        }
    }

    /// Whether a cancellation of the task is under way, and the task has ended.
    pub fn has_ended(&self, task: TaskId) -> bool
        ensures { result ≡ is_some (entry_of self.now task).receipt }
    {
        match self.find(&task) {
            Some(entry) => entry.has_ended(),
            None => false,
        }
    }

    /// Whether a listing of the parent's children waits for one of them.
    pub fn has_listing(&self, parent: TaskId) -> bool
        ensures { result ≡ has_listing self.now parent }
    {
        self.listings.has(&parent)
    }

    /// Begins the cancellation of a task: a ban goes to each of the nodes, ascending. With no node the bans are
    /// placed at once. Where memory runs out nothing has changed.
    pub fn begin(
        &mut self,
        task: TaskId,
        cancel: u32,
        asked: NodeSet,
        waiter: Option<Waiter>,
    ) -> Result<Vec<Act>, AllocError>
        requires fresh { has_entry self.old task ≡ false }
        requires cancel { IsCancel cancel }
        requires waiter { ForSome waiter (λ w. IsCancel w.cancel) }
        ensures acts { IfOk result (λ acts. acts.items
            ≡ ban_acts task cancel (nodes_of asked)
            ++ first_acts task cancel (nodes_of asked) waiter) }
        ensures begun { OnOk result (self.new
            ≡ with_entry self.old task (Some (begun cancel (nodes_of asked) waiter))) }
        ensures err { OnErr result (self.new ≡ self.old) }
    {
        let mut acts = bans(self.alloc, task, cancel, &asked)?;
        let entry = Entry::begun(self.alloc, task, cancel, asked, waiter, &mut acts)?;
        self.entries.insert(task, entry)?;
        Ok(acts)
    }

    /// One more cancel command joins the cancellation of a task. It is answered at once where the bans are placed
    /// and it does not wait. Where memory runs out nothing has changed.
    pub fn joined(&mut self, task: TaskId, waiter: Waiter) -> Result<Vec<Act>, AllocError>
        requires has { has_entry self.old task ≡ true }
        requires open_task { is_some (entry_of self.old task).receipt ≡ false }
        requires cancel { IsCancel waiter.cancel }
        ensures acts { IfOk result (λ acts. acts.items
            ≡ join_acts task (entry_of self.old task) waiter) }
        ensures joined { OnOk result (self.new
            ≡ with_entry self.old task (Some (joined_by (entry_of self.old task) waiter))) }
        ensures err { OnErr result (self.new ≡ self.old) }
        ensures waiting { WaitsWherePlaced (entry_of self.old task) }
    {
        let mut acts = Vec::new(self.alloc);
        join_in(&mut self.entries, task, waiter, &mut acts)?;
        Ok(acts)
    }

    /// This node has listed the children of a banned parent. The ban is acknowledged once each of them has its own bans
    /// placed or has ended. Where all have, the acknowledgement is the answer; else it is the last act of the call of
    /// `acked` or `ended` at which the last of them does. A child whose cancellation is not under way is not waited for,
    /// nor is one for which a listing waits already. Where memory runs out nothing has changed.
    pub fn ban_listed(
        &mut self,
        parent: TaskId,
        children: &[TaskId],
    ) -> Result<Option<Act>, AllocError>
        requires once { has_listing self.old parent ≡ false }
        ensures act { IfOk result (λ act. act ≡ listing_act self.old parent children.now) }
        ensures listed { OnOk result (self.new ≡ with_listing self.old parent children.now) }
        ensures err { OnErr result (self.new ≡ self.old) }
    {
        let number = self.listings.note(&self.entries, parent, children)?;
        if number > 0 {
            return Ok(None);
        }
        Ok(Some(Act::SendAck {
            to: parent.node,
            parent,
        }))
    }

    /// An awaited node acknowledges the task's ban. If the task's bans are placed with it, a listing that waited for
    /// the task does so no longer, and if it waits for no other child, the acknowledgement to the parent's node is the
    /// last act. Where memory runs out nothing has changed.
    pub fn acked(&mut self, task: TaskId, from: u32) -> Result<Vec<Act>, AllocError>
        requires { Contains (entry_of self.old task).awaited from }
        ensures acts { IfOk result (λ acts. acts.items
            ≡ due_acts task (with_ack (entry_of self.old task) from)
            ++ leaving_acts self.old task (is_stopped (with_ack (entry_of self.old task) from))) }
        ensures acked { OnOk result (self.new
            ≡ left_by (with_entry self.old task (rest_of (with_ack (entry_of self.old task) from))) task
            (is_stopped (with_ack (entry_of self.old task) from))) }
        ensures err { OnErr result (self.new ≡ self.old) }
        ensures ascending { IsNonDecreasingBy (λ w. w.cancel) (entry_of self.old task).waiters }
    {
        let Some(entry) = self.find(&task) else {
            unreachable!()
        };
        let stage = entry.after_ack(from);
        self.settle(task, &stage)
    }

    /// The task has ended, with this receipt. A listing that waited for the task does so no longer, and if it waits for
    /// no other child, the acknowledgement to the parent's node is the last act. Where memory runs out nothing has
    /// changed.
    pub fn ended(&mut self, task: TaskId, receipt: Receipt) -> Result<Vec<Act>, AllocError>
        requires has { has_entry self.old task ≡ true }
        requires open_task { is_some (entry_of self.old task).receipt ≡ false }
        requires own { receipt.task ≡ Some task }
        ensures acts { IfOk result (λ acts. acts.items
            ≡ due_acts task (with_receipt (entry_of self.old task) receipt)
            ++ leaving_acts self.old task true) }
        ensures ended { OnOk result (self.new
            ≡ left_by (with_entry self.old task (rest_of (with_receipt (entry_of self.old task) receipt))) task true) }
        ensures err { OnErr result (self.new ≡ self.old) }
        ensures ascending { IsNonDecreasingBy (λ w. w.cancel) (entry_of self.old task).waiters }
    {
        let Some(entry) = self.find(&task) else {
            unreachable!()
        };
        let stage = entry.after_end(receipt);
        self.settle(task, &stage)
    }

    /// Those who are to be answered for the task, by ascending number.
    fn waiters(&self, task: &TaskId) -> &[Waiter]
        ensures waiters { result.now ≡ (entry_of self.now task.now).waiters }
        ensures ascending { IsNonDecreasingBy (λ w. w.cancel) (entry_of self.now task.now).waiters }
    {
        match self.find(task) {
            Some(entry) => entry.waiters(),
            None => &[],
        }
    }

    /// Gives the acts that are due at a stage of the task's cancellation, and moves it on. All memory is taken before
    /// anything changes.
    fn settle(&mut self, task: TaskId, stage: &Stage) -> Result<Vec<Act>, AllocError>
        requires { has_entry self.old task ≡ true }
        ensures acts { IfOk result (λ acts. acts.items
            ≡ due_acts task (seen stage.now (entry_of self.old task).waiters)
            ++ leaving_acts self.old task (is_stopped (seen stage.now (entry_of self.old task).waiters))) }
        ensures settled { OnOk result (self.new
            ≡ left_by (with_entry self.old task (rest_of (seen stage.now (entry_of self.old task).waiters))) task
            (is_stopped (seen stage.now (entry_of self.old task).waiters))) }
        ensures err { OnErr result (self.new ≡ self.old) }
        ensures ascending { IsNonDecreasingBy (λ w. w.cancel) (entry_of self.old task).waiters }
    {
        let mut acts = due(self.alloc, task, stage, self.waiters(&task))?;
        let stopped = stage.has_stopped();
        self.listings.add_ack(&task, stopped, &mut acts)?;
        settle_in(&mut self.entries, &task, stage);
        self.listings.leave(&task, stopped);
        Ok(acts)
    }
}

/// Moves a task's entry on to a stage.
fn advance(entries: &mut BTreeMap<TaskId, Entry>, task: &TaskId, stage: &Stage)
    ensures { (c : Cancellation) → tree.get task_id_cmp entries.old task.now ≡ Some c
        → (q : TaskId) → tree.get task_id_cmp entries.new q
        ≡ (if is_at (task_id_cmp task.now) q
        then Some (still_waiting (seen stage.now c.waiters))
        else tree.get task_id_cmp entries.old q) }
{
    if let Some(entry) = entries.get_mut(task) {
        entry.advance(stage);
    }
}

/// Moves a task's entry on to a stage, or takes it away once it is done.
fn settle_in(entries: &mut BTreeMap<TaskId, Entry>, task: &TaskId, stage: &Stage)
    ensures { (c : Cancellation) → tree.get task_id_cmp entries.old task.now ≡ Some c
        → (q : TaskId) → tree.get task_id_cmp entries.new q
        ≡ (if is_at (task_id_cmp task.now) q
        then rest_of (seen stage.now c.waiters)
        else tree.get task_id_cmp entries.old q) }
{
    if stage.is_done() {
        entries.remove(task);
    } else {
        advance(entries, task, stage);
    }
}

/// Joins a waiter to a task's entry.
fn join_in(
    entries: &mut BTreeMap<TaskId, Entry>,
    task: TaskId,
    waiter: Waiter,
    acts: &mut Vec<Act>,
) -> Result<(), AllocError>
    requires { IsSome (tree.get task_id_cmp entries.old task) }
    ensures acts { (c : Cancellation) → tree.get task_id_cmp entries.old task ≡ Some c
        → OnOk result (acts.new.items ≡ acts.old.items ++ join_acts task c waiter) }
    ensures joined { (c : Cancellation) → tree.get task_id_cmp entries.old task ≡ Some c
        → OnOk result ((q : TaskId) → tree.get task_id_cmp entries.new q
        ≡ (if is_at (task_id_cmp task) q
        then Some (joined_by c waiter)
        else tree.get task_id_cmp entries.old q)) }
    ensures err { OnErr result ((q : TaskId)
        → tree.get task_id_cmp entries.new q ≡ tree.get task_id_cmp entries.old q) }
    ensures waiting { (c : Cancellation) → tree.get task_id_cmp entries.old task ≡ Some c
        → WaitsWherePlaced c }
{
    match entries.get_mut(&task) {
        Some(entry) => {
            entry.join(task, waiter, acts)?;
            Ok(())
        }
        None => unreachable!(),
    }
}
