ghost use Rattle.std.specs.Prelude.{◌≡◌, ◌++◌, ◌↔◌, ◌&&◌, not, filter, position, Contains, IsTrue, is_some, nat_lt, IfOk, OnOk, OnErr};
ghost use Rattle.std.specs.List.Sorted.{IsNonDecreasingBy};
ghost use Rattle.child_track.specs.NodeSet.{nodes_of};
ghost use Rattle.cancel_core.specs.Cancellation.{opened, is_placed, with_waiter, with_ack, with_receipt, still_waiting, WaitsWherePlaced};
ghost use Rattle.cancel_core.specs.Acts.{join_acts, joined_by, first_acts, begun};
ghost use Rattle.cancel_core.specs.Listings.{is_stopped};

use crate::act::{Act, Waiter};
use crate::stage::Stage;
use child_track::{NodeSet, Receipt};
use std::alloc::{AllocError, Global};
use std::marker::Model;
use task_ids::TaskId;

/// The cancellation of one task. Its waiters stand by ascending number.
#[derive(Drop)]
pub(crate) struct Entry {
    stage: Stage,
    waiters: Vec<Waiter>,
}

impl Model for Entry {
    ghost use Rattle.std.specs.List.Sorted.{IsNonDecreasingBy};
    ghost use Rattle.cancel_core.specs.Cancellation.{Cancellation, WaitsWherePlaced};
    ghost use Rattle.cancel_core.specs.Cancellations.{coded_cancellation};
    ghost use Rattle.cancel_core.specs.Stage.{seen};

    ghost Value = { Cancellation };

    ghost coded = { coded_cancellation };

    ghost view = { λ a. seen a.stage a.waiters.items };

    ghost invariant = { λ a. IsNonDecreasingBy (λ w. w.cancel) a.waiters.items
        × WaitsWherePlaced (seen a.stage a.waiters.items) };
}

impl Entry {
    ghost use Rattle.cancel_core.specs.Stage.{seen};

    /// Bans go to the nodes, and nobody waits yet. It takes no memory.
    fn new(alloc: Global, cancel: u32, asked: NodeSet) -> Entry
        ensures { result ≡ opened cancel (nodes_of asked) }
    {
        Entry {
            stage: Stage {
                cancel,
                banned: asked,
                acked: NodeSet(0),
                receipt: None,
            },
            waiters: Vec::new(alloc),
        }
    }

    /// How a cancellation begins, with the acts for its first waiter.
    pub(crate) fn begun(
        alloc: Global,
        task: TaskId,
        cancel: u32,
        asked: NodeSet,
        waiter: Option<Waiter>,
        acts: &mut Vec<Act>,
    ) -> Result<Entry, AllocError>
        ensures acts { OnOk result (acts.new.items
            ≡ acts.old.items ++ first_acts task cancel (nodes_of asked) waiter) }
        ensures begun { IfOk result (λ entry. entry ≡ begun cancel (nodes_of asked) waiter) }
    {
        let mut entry = Entry::new(alloc, cancel, asked);
        match waiter {
            Some(waiter) => {
                entry.join(task, waiter, acts)?;
                Ok(entry)
            }
            None => Ok(entry),
        }
    }

    pub(crate) fn awaits(&self, node: u32) -> bool
        ensures { IsTrue result ↔ Contains self.now.awaited node }
    {
        node != 0 && self.stage.is_open_at(node)
    }

    pub(crate) fn has_ended(&self) -> bool
        ensures { result ≡ is_some self.now.receipt }
    {
        self.stage.receipt.is_some()
    }

    /// Whether the bans are placed or the task has ended.
    pub(crate) fn has_stopped(&self) -> bool
        ensures { result ≡ is_stopped self.now }
    {
        self.stage.has_stopped()
    }

    pub(crate) fn waiters(&self) -> &[Waiter]
        ensures waiters { result.now ≡ self.now.waiters }
        ensures ascending { IsNonDecreasingBy (λ w. w.cancel) result.now }
    {
        self.waiters.as_slice()
    }

    /// The stage once an awaited node has acknowledged.
    pub(crate) fn after_ack(&self, from: u32) -> Stage
        requires { Contains self.now.awaited from }
        ensures { seen result self.now.waiters ≡ with_ack self.now from }
    {
        self.stage.after_ack(from)
    }

    /// The stage once the task has ended.
    pub(crate) fn after_end(&self, receipt: Receipt) -> Stage
        ensures { seen result self.now.waiters ≡ with_receipt self.now receipt }
    {
        self.stage.after_end(receipt)
    }

    /// Whether one who joins now is answered at once.
    fn answers_at_once(&self, waiter: &Waiter) -> bool
        ensures { result ≡ (is_placed self.now && not waiter.now.wait) }
    {
        self.stage.is_placed() && !waiter.wait
    }

    /// Answers one who joins, by an act more, or notes him. Where memory runs out nothing has changed.
    pub(crate) fn join(
        &mut self,
        task: TaskId,
        waiter: Waiter,
        acts: &mut Vec<Act>,
    ) -> Result<(), AllocError>
        ensures acts { OnOk result (acts.new.items
            ≡ acts.old.items ++ join_acts task self.old waiter) }
        ensures joined { OnOk result (self.new ≡ joined_by self.old waiter) }
        ensures err { OnErr result (self.new ≡ self.old) }
        ensures waiting { WaitsWherePlaced self.old }
    {
        if self.answers_at_once(&waiter) {
            acts.push(Act::AnswerPlaced {
                cancel: waiter.cancel,
                task,
            })?;
            return Ok(());
        }
        note(&mut self.waiters, waiter)
    }

    /// Moves on to a stage. Once the bans are placed, those who do not wait for completion have their answers.
    pub(crate) fn advance(&mut self, stage: &Stage)
        ensures { self.new ≡ still_waiting (seen stage.now self.old.waiters) }
    {
        self.stage = *stage;
        if stage.is_placed() {
            keep_waiting(&mut self.waiters);
        }
    }
}

/// Puts a waiter before the first of a greater number.
fn note(waiters: &mut Vec<Waiter>, waiter: Waiter) -> Result<(), AllocError>
    requires { IsNonDecreasingBy (λ w. w.cancel) waiters.old.items }
    ensures noted { OnOk result (waiters.new.items ≡ with_waiter waiters.old.items waiter) }
    ensures ascending { IsNonDecreasingBy (λ w. w.cancel) waiters.new.items }
    ensures err { OnErr result (waiters.new.items ≡ waiters.old.items) }
{
    let place = first_above(waiters.as_slice(), waiter.cancel).unwrap_or(waiters.len());
    waiters.insert(place, waiter)?;
    Ok(())
}

fn first_above(waiters: &[Waiter], cancel: u32) -> Option<usize>
    ensures { result ≡ position (λ w. nat_lt cancel w.cancel) waiters.now }
{
    waiters.iter().position(|other| cancel < other.cancel)
}

fn keep_waiting(waiters: &mut Vec<Waiter>)
    ensures { waiters.new.items ≡ filter (λ w. w.wait) waiters.old.items }
{
    waiters.retain(|waiter| waiter.wait);
}
