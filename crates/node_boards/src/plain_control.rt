//! The control seat of a plain board.
ghost use Rattle.std.specs.Prelude.{◌≡◌, ◌≢◌, ℕ, ◌<◌, ◌≤◌, true, length, None, Some, IfOk, MatchOption};
ghost use Rattle.race_board.specs.Keys.{task_key};
ghost use Rattle.race_board.specs.Lists.{AlreadyBy};
ghost use Rattle.node_boards.specs.Plain.{Marks};
ghost use Rattle.node_boards.specs.PlainLists.{Lists};
ghost use Rattle.node_boards.specs.PlainSeats.{OneEach, IsPlacedAt, NotPlaced, placed, KeepsBan, KeepsUnlisted};
ghost use Rattle.node_boards.specs.Seats.{HasBanAt, HasBanOf, SameBans, OneBanMore, OneBanLess, Keeps, KeepsOthers};

use crate::plain_listing::mark_children;
use crate::plain_rows::{Placed, find_placed};
use crate::plain_table::Table;
use std::alloc::{AllocError, Global};
use std::marker::PhantomData;
use task_ids::{BoardName, TaskId};
use task_table::MarkAnswer;

/// The seat of a node's control worker. It has the bans that were put with it.
#[derive(Drop)]
pub struct PlainControlSeat<N: BoardName> {
    pub(crate) bans: Vec<Option<Placed>>,
    /// For each slot the number that was marked there last.
    pub(crate) marked: Vec<Option<u32>>,
    name: PhantomData<N>,
    ghost few: { length bans.items ≤ 1024 },
    ghost few_slots: { length marked.items ≤ 1024 },
    ghost one_each: { OneEach bans.items },
}

impl<N: BoardName> PlainControlSeat<N> {
    ghost use Rattle.node_boards.specs.PlainNew.{IsNewControl};

    /// A seat with no ban, which has marked no task.
    pub(crate) fn new(
        alloc: Global,
        slots: u32,
        bans: u32,
    ) -> Result<PlainControlSeat<N>, AllocError>
        requires { (slots ≤ 1024) × (bans ≤ 1024) }
        ensures { IfOk result (λ s. IsNewControl s slots bans) }
    {
        Ok(PlainControlSeat {
            bans: vec![in alloc; None; bans as usize]?,
            marked: vec![in alloc; None; slots as usize]?,
            name: PhantomData,
        })
    }

    /// Takes in a ban that was put.
    pub(crate) fn place(&mut self, place: usize, parent: TaskId, cancel: u32)
        requires free { (place < length self.old.bans.items) × (placed self.old.bans.items place ≡ None) }
        requires new { ¬ HasBanOf (KeepsBan self.old.bans.items) (task_key parent) }
        ensures more { OneBanMore (KeepsBan self.old.bans.items) (KeepsBan self.new.bans.items) place (task_key parent) cancel }
        ensures unlisted { KeepsUnlisted self.new.bans.items place × Keeps (KeepsUnlisted self.old.bans.items) (KeepsUnlisted self.new.bans.items) }
        ensures kept { (self.new.marked ≡ self.old.marked) × (length self.new.bans.items ≡ length self.old.bans.items) }
    {
        self.bans[place] = Some(Placed {
            parent,
            cancel,
            is_listed: false,
        });
    }

    /// Notes that a ban was listed.
    pub(crate) fn note_listed(&mut self, place: usize)
        requires { place < length self.old.bans.items }
        ensures bans { SameBans (KeepsBan self.old.bans.items) (KeepsBan self.new.bans.items) }
        ensures unlisted { KeepsOthers (KeepsUnlisted self.old.bans.items) (KeepsUnlisted self.new.bans.items) place }
        ensures kept { (self.new.marked ≡ self.old.marked) × (length self.new.bans.items ≡ length self.old.bans.items) }
    {
        if let Some(ban) = self.bans[place] {
            self.bans[place] = Some(Placed {
                parent: ban.parent,
                cancel: ban.cancel,
                is_listed: true,
            });
        }
    }

    /// Lets the ban of the parent go, and gives its place.
    pub(crate) fn let_go(&mut self, parent: TaskId) -> Option<usize>
        ensures had { MatchOption result (¬ HasBanOf (KeepsBan self.old.bans.items) (task_key parent)) (λ j. HasBanOf (KeepsBan self.old.bans.items) (task_key parent)) }
        ensures gone { OneBanLess (KeepsBan self.old.bans.items) (KeepsBan self.new.bans.items) (task_key parent) }
        ensures unlisted { Keeps (KeepsUnlisted self.old.bans.items) (KeepsUnlisted self.new.bans.items) }
        ensures kept { (self.new.marked ≡ self.old.marked) × (length self.new.bans.items ≡ length self.old.bans.items) }
    {
        match find_placed(&self.bans, parent) {
            Some((place, _)) => {
                self.bans[place] = None;
                Some(place)
            }
            None => None,
        }
    }

    /// Lists the ban at a place: marks its unmarked children, and puts the numbers that are handed over first into
    /// `found`. Gives how many these are.
    pub(crate) fn list(&mut self, table: &mut Table<N>, place: usize, found: &mut [u32]) -> usize
        requires room { length found.old ≡ length self.old.marked.items }
        ensures lists { Lists table.old table.new self.old.marked.items self.new.marked.items place result found.new }
        ensures within { result ≤ length found.new }
        ensures bans { (self.new.bans ≡ self.old.bans) × (length self.new.marked.items ≡ length self.old.marked.items) }
    {
        match table.ban_at(place) {
            Some(ban) => mark_children(table, &ban, &mut self.marked, found),
            None => 0,
        }
    }

    /// Marks the live task with that number.
    pub(crate) fn mark(&mut self, table: &mut Table<N>, number: u32, cancel: u32) -> MarkAnswer
        requires { N.allowed cancel }
        ensures marks { Marks table.old table.new self.old.marked.items self.new.marked.items number cancel result }
        ensures allowed { AlreadyBy N.allowed result }
        ensures bans { (self.new.bans ≡ self.old.bans) × (length self.new.marked.items ≡ length self.old.marked.items) }
    {
        table.mark(number, cancel, &mut self.marked)
    }
}
