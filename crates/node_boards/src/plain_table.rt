//! The table under a plain board's lock: its slots and its bans, at full length from the start.
ghost use Rattle.std.specs.Prelude.{◌≡◌, ◌≢◌, ℕ, ◌+◌, ◌<◌, ◌≤◌, length, replicate, None, Some, IfOk, IfSome, IfNone, MatchBool};
ghost use Rattle.task_ids.specs.Limits.{IsNode, IsNumber};
ghost use Rattle.race_board.specs.Checks.{BannedBy};
ghost use Rattle.race_board.specs.Lists.{AlreadyBy};

use crate::plain_rows::{Ban, Live, find_ban, find_task, free_place};
use std::alloc::{AllocError, Global};
use std::marker::{Model, PhantomData};
use task_ids::{BoardName, TaskId};
use task_table::{Check, MarkAnswer};

const LAST_NUMBER: u32 = 1_048_575;

/// A plain board's slots and bans. Its marks and the cancellations of its bans are those that the board's name allows.
#[derive(Drop)]
pub(crate) struct Table<N: BoardName> {
    last: u32,
    slots: Vec<Option<Live>>,
    bans: Vec<Option<Ban>>,
    name: PhantomData<N>,
}

impl<N: BoardName> Model for Table<N> {
    ghost use Rattle.node_boards.specs.Plain.{Rows, IsAllowed};

    ghost Value = { Rows };

    ghost view = { λ t. record { last = t.last; slots = t.slots.items; bans = t.bans.items } };

    ghost invariant = { λ t. IsAllowed N.allowed (record { last = t.last; slots = t.slots.items; bans = t.bans.items }) };
}

impl<N: BoardName> Table<N> {
    ghost use Rattle.node_boards.specs.Plain.{Claims, IsFull, Checks, Tracks, Untracks, Looks, Ends, AtTask, Marks, AllowedBan, ban, slot, with_ban, with_slot, child_in, struck};

    /// A table with all its slots and places free.
    pub(crate) fn new(alloc: Global, slots: usize, bans: usize) -> Result<Table<N>, AllocError>
        ensures { IfOk result (λ t. t ≡ record { last = 0; slots = replicate slots None; bans = replicate bans None }) }
    {
        Ok(Table {
            last: 0,
            slots: vec![in alloc; None; slots]?,
            bans: vec![in alloc; None; bans]?,
            name: PhantomData,
        })
    }

    /// The next number, or none where 1,048,575 was given.
    pub(crate) fn draw(&mut self) -> Option<u32>
        ensures given { IfSome result (λ n. IsNumber n × (n ≡ self.old.last + 1) × (self.new ≡ record self.old { last = n })) }
        ensures none { IfNone result ((1048575 ≤ self.old.last) × (self.new ≡ self.old)) }
    {
        if self.last >= LAST_NUMBER {
            return None;
        }
        self.last += 1;
        Some(self.last)
    }

    /// Puts a task into a free slot, and tells whether there was one.
    pub(crate) fn claim(&mut self, number: u32, parent: Option<TaskId>) -> bool
        ensures { MatchBool result (Claims self.old self.new number parent) (IsFull self.old × (self.new ≡ self.old)) }
    {
        let Some(i) = free_place(&self.slots) else {
            return false;
        };
        self.slots[i] = Some(Live {
            number,
            parent,
            mark: None,
            asks: 0,
        });
        true
    }

    /// Whether a ban of the parent stands.
    pub(crate) fn check(&self, parent: TaskId) -> Check
        ensures checks { Checks self.now parent result }
        ensures allowed { BannedBy N.allowed result }
    {
        match find_ban(&self.bans, parent) {
            Some((_, ban)) => Check::Banned(ban.cancel),
            None => Check::Clear,
        }
    }

    /// Notes that the task will ask on a node, and gives its mark.
    pub(crate) fn track(&mut self, number: u32, to: u32) -> Option<u32>
        requires { IsNode to }
        ensures tracks { Tracks self.old self.new number to result }
        ensures allowed { IfSome result N.allowed }
    {
        let (i, mut live) = find_task(&self.slots, number)?;
        live.asks |= 1 << to;
        self.slots[i] = Some(live);
        live.mark
    }

    /// Takes a node out of those that the task may ask.
    pub(crate) fn untrack(&mut self, number: u32, to: u32)
        requires { IsNode to }
        ensures { Untracks self.old self.new number to }
    {
        if let Some((i, mut live)) = find_task(&self.slots, number) {
            live.asks &= u16::MAX - (1 << to);
            self.slots[i] = Some(live);
        }
    }

    /// The task's mark.
    pub(crate) fn look(&self, number: u32) -> Option<u32>
        ensures looks { Looks self.now number result }
        ensures allowed { IfSome result N.allowed }
    {
        let (_, live) = find_task(&self.slots, number)?;
        live.mark
    }

    /// Frees the task's slot, and gives its mark.
    pub(crate) fn end(&mut self, number: u32) -> Option<u32>
        ensures ends { Ends self.old self.new number result }
        ensures allowed { IfSome result N.allowed }
    {
        let (i, live) = find_task(&self.slots, number)?;
        self.slots[i] = None;
        live.mark
    }

    /// Puts a ban into a place.
    pub(crate) fn put(&mut self, place: usize, parent: TaskId, cancel: u32)
        requires { N.allowed cancel }
        ensures { self.new ≡ with_ban self.old place (Some (record { parent = parent; cancel = cancel })) }
    {
        if let Some(free) = self.bans.get_mut(place) {
            *free = Some(Ban { parent, cancel });
        }
    }

    /// Takes the ban of a place away.
    pub(crate) fn lift(&mut self, place: usize)
        ensures { self.new ≡ with_ban self.old place None }
    {
        if let Some(taken) = self.bans.get_mut(place) {
            *taken = None;
        }
    }

    /// The ban of a place.
    pub(crate) fn ban_at(&self, place: usize) -> Option<Ban>
        ensures is { result ≡ ban self.now place }
        ensures allowed { AllowedBan N.allowed result }
    {
        *self.bans.get(place)?
    }

    /// The nodes that a live task may ask, as bits, and none where it has ended.
    pub(crate) fn asks(&self, number: u32) -> u16
        ensures { AtTask self.now number (λ i live. result ≡ live.asks) (result ≡ 0) }
    {
        match find_task(&self.slots, number) {
            Some((_, live)) => live.asks,
            None => 0,
        }
    }

    /// Marks the live task with that number, unless it is marked already. `marked` keeps for each slot the number that
    /// was marked there last.
    pub(crate) fn mark(
        &mut self,
        number: u32,
        cancel: u32,
        marked: &mut [Option<u32>],
    ) -> MarkAnswer
        requires { N.allowed cancel }
        ensures marks { Marks self.old self.new marked.old marked.new number cancel result }
        ensures allowed { AlreadyBy N.allowed result }
    {
        let Some((i, mut live)) = find_task(&self.slots, number) else {
            return MarkAnswer::NotFound;
        };
        if let Some(mark) = live.mark {
            return MarkAnswer::Already(mark);
        }
        if i >= marked.len() {
            return MarkAnswer::NotFound;
        }
        marked[i] = Some(number);
        live.mark = Some(cancel);
        self.slots[i] = Some(live);
        MarkAnswer::Marked
    }

    /// Marks the live child of the ban's parent in a slot, unless it is marked already, and gives it as it was before.
    pub(crate) fn pass_slot(&mut self, i: usize, ban: &Ban) -> Option<Live>
        requires { N.allowed ban.now.cancel }
        ensures child { result ≡ child_in ban.now (slot self.old i) }
        ensures marks { self.new ≡ with_slot self.old i (struck ban.now (slot self.old i)) }
    {
        let mut live = (*self.slots.get(i)?)?;
        if live.parent != Some(ban.parent) {
            return None;
        }
        let was = live;
        if live.mark.is_none() {
            live.mark = Some(ban.cancel);
            self.slots[i] = Some(live);
        }
        Some(was)
    }
}
