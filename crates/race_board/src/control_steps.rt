//! The steps of the control seat.
ghost use Rattle.std.specs.Prelude.{◌≡◌, ◌≢◌, ℕ, ◌+◌, ◌*◌, ◌-◌, ◌<◌, ◌⊎◌, [], ◌==◌, cond, length};
ghost use prog.Atomic.{either};
ghost use Rattle.race_board.specs.Words.{number, parent, cancel, banned, by, with_mark, ban_word};
ghost use Rattle.race_board.specs.Board.{ban, no_ban, In};
ghost use Rattle.race_board.specs.Steps.{noted, did, banning, with_ban, Wanted, past, struck, missed, halved, with_mask, no_mask};
ghost use Rattle.race_board.specs.StepEvents.{of_ban, of_scan, of_mark, of_unban};
ghost use Rattle.race_board.specs.Turn.{Turn, MayMark};

use crate::board_words::BoardWords;
use crate::name::About;
use crate::plays::{Half, Lift, Note, Put, Scan, Strike, Whole};
use crate::rule::Place;
use crate::words::mark_of;
use std::marker::Brand;
use task_ids::BoardName;

impl<N: BoardName> BoardWords<N> {
    /// Puts a ban's word into a place where no ban stands.
    pub(crate) fn put(&self, seat: &mut Place, place: usize, word: u64) -> u64
        requires fits { (seat.old.table_id ≡ self.now.table.shared.table_id) × (seat.old.me.1 ≡ []) × (seat.old.me.0.size ≡ self.now.size) }
        requires control { (seat.old.me.0.lead ≡ 1) × (length seat.old.me.0.bans ≡ self.now.size.bans) × (place < self.now.size.bans) }
        requires word { (banned word ≢ 0) × N.allowed (by word) × (by word < 65536) }
        requires free { (ban seat.old.me.0 place).parent ≡ 0 }
        ensures fits { (seat.new.table_id ≡ seat.old.table_id) × (seat.new.me.1 ≡ []) }
        ensures free { result ≡ 0 }
        ensures puts { seat.new.me.0 ≡ noted (with_ban seat.old.me.0 place (banning (banned word) (by word) 0)) (did (self.now.size.slots + place + 1) 0 word) }
        ensures turn { Turn seat.old.me.0.size seat.old.me.0 seat.new.me.0 (self.now.size.slots + place + 1) result (either (result == 0) word result) (of_ban place result word) }
    {
        self.table
            .shared
            .compare_exchange::<Put>(seat, self.size.slots + place + 1, 0, word)
    }

    /// Loads a slot, to mark the task there.
    pub(crate) fn note(&self, seat: &mut Place, slot: usize) -> u64
        requires fits { (seat.old.table_id ≡ self.now.table.shared.table_id) × (seat.old.me.1 ≡ []) × (seat.old.me.0.size ≡ self.now.size) }
        requires control { (seat.old.me.0.lead ≡ 1) × (slot < self.now.size.slots) }
        ensures fits { (seat.new.table_id ≡ seat.old.table_id) × (seat.new.me.1 ≡ []) }
        ensures notes { seat.new.me.0 ≡ noted seat.old.me.0 (did (slot + 1) result result) }
        ensures turn { Turn seat.old.me.0.size seat.old.me.0 seat.new.me.0 (slot + 1) result result [] }
        ensures allowed { MayMark N.allowed result }
    {
        self.table.shared.load::<Note<N>>(seat, slot + 1)
    }

    fn scan_about<A: About>(&self, seat: &mut Place, place: usize, slot: usize) -> u64
        requires about { place ≡ A.place }
        requires fits { (seat.old.table_id ≡ self.now.table.shared.table_id) × (seat.old.me.1 ≡ []) × (seat.old.me.0.size ≡ self.now.size) }
        requires control { (seat.old.me.0.lead ≡ 1) × (length seat.old.me.0.bans ≡ self.now.size.bans) × (place < self.now.size.bans) × (slot < self.now.size.slots) }
        requires here { ((ban seat.old.me.0 place).parent ≢ 0) × ((ban seat.old.me.0 place).next ≡ slot) × (seat.old.me.0.about ≡ 0) }
        ensures fits { (seat.new.table_id ≡ seat.old.table_id) × (seat.new.me.1 ≡ []) }
        ensures child { Wanted seat.old.me place result → seat.new.me.0 ≡ noted (past seat.old.me.0 place slot (slot + 1) result) (did (slot + 1) result result) }
        ensures other { ¬ Wanted seat.old.me place result → seat.new.me.0 ≡ noted (past seat.old.me.0 place slot 0 0) (did (slot + 1) result result) }
        ensures turn { Turn seat.old.me.0.size seat.old.me.0 seat.new.me.0 (slot + 1) result result (of_scan seat.old.me.0 place (slot + 1) result) }
    {
        self.table.shared.load::<Scan<A>>(seat, slot + 1)
    }

    /// Loads the slot that the scan of the ban at a place comes to.
    pub(crate) fn scan(&self, seat: &mut Place, place: usize, slot: usize) -> u64
        requires fits { (seat.old.table_id ≡ self.now.table.shared.table_id) × (seat.old.me.1 ≡ []) × (seat.old.me.0.size ≡ self.now.size) }
        requires control { (seat.old.me.0.lead ≡ 1) × (length seat.old.me.0.bans ≡ self.now.size.bans) × (place < self.now.size.bans) × (slot < self.now.size.slots) }
        requires here { ((ban seat.old.me.0 place).parent ≢ 0) × ((ban seat.old.me.0 place).next ≡ slot) × (seat.old.me.0.about ≡ 0) }
        ensures fits { (seat.new.table_id ≡ seat.old.table_id) × (seat.new.me.1 ≡ []) }
        ensures child { Wanted seat.old.me place result → seat.new.me.0 ≡ noted (past seat.old.me.0 place slot (slot + 1) result) (did (slot + 1) result result) }
        ensures other { ¬ Wanted seat.old.me place result → seat.new.me.0 ≡ noted (past seat.old.me.0 place slot 0 0) (did (slot + 1) result result) }
        ensures turn { Turn seat.old.me.0.size seat.old.me.0 seat.new.me.0 (slot + 1) result result (of_scan seat.old.me.0 place (slot + 1) result) }
    {
        self.scan_about::<Brand>(seat, place, slot)
    }

    fn strike_about<A: About>(&self, seat: &mut Place, slot: usize, old: u64, mark: u32) -> u64
        requires fits { (seat.old.table_id ≡ self.now.table.shared.table_id) × (seat.old.me.1 ≡ []) × (seat.old.me.0.size ≡ self.now.size) }
        requires control { (seat.old.me.0.lead ≡ 1) × (slot < self.now.size.slots) × (seat.old.me.0.half ≡ 0) }
        requires word { (old ≢ 0) × (cancel old ≡ 0) }
        requires about { seat.old.me.0.about ≢ 0 → (seat.old.me.0.about ≡ slot + 1) × (seat.old.me.0.loaded ≡ old) }
        requires mark { (mark ≢ 0) × (mark < 65536) }
        requires allowed { N.allowed mark ⊎ ((j : ℕ) × (j < self.now.size.bans) × ((ban seat.old.me.0 j).parent ≢ 0) × ((ban seat.old.me.0 j).cancel ≡ mark)) }
        ensures fits { (seat.new.table_id ≡ seat.old.table_id) × (seat.new.me.1 ≡ []) }
        ensures marks { result ≡ old → seat.new.me.0 ≡ noted (struck seat.old.me.0 slot (number old)) (did (slot + 1) old (with_mark old mark)) }
        ensures misses { result ≢ old → seat.new.me.0 ≡ noted (missed seat.old.me.0) (did (slot + 1) result result) }
        ensures turn { Turn seat.old.me.0.size seat.old.me.0 seat.new.me.0 (slot + 1) result (either (result == old) (with_mark old mark) result) (of_mark A.place result old (with_mark old mark)) }
    {
        let marked = mark_of(old, u64::from(mark));
        self.table
            .shared
            .compare_exchange::<Strike<A>>(seat, slot + 1, old, marked)
    }

    /// Marks a slot where its word is still the one that was loaded, and gives the word that it had.
    pub(crate) fn strike(&self, seat: &mut Place, slot: usize, old: u64, mark: u32) -> u64
        requires fits { (seat.old.table_id ≡ self.now.table.shared.table_id) × (seat.old.me.1 ≡ []) × (seat.old.me.0.size ≡ self.now.size) }
        requires control { (seat.old.me.0.lead ≡ 1) × (slot < self.now.size.slots) × (seat.old.me.0.half ≡ 0) }
        requires word { (old ≢ 0) × (cancel old ≡ 0) }
        requires about { seat.old.me.0.about ≢ 0 → (seat.old.me.0.about ≡ slot + 1) × (seat.old.me.0.loaded ≡ old) }
        requires mark { (mark ≢ 0) × (mark < 65536) }
        requires allowed { N.allowed mark }
        ensures fits { (seat.new.table_id ≡ seat.old.table_id) × (seat.new.me.1 ≡ []) }
        ensures marks { result ≡ old → seat.new.me.0 ≡ noted (struck seat.old.me.0 slot (number old)) (did (slot + 1) old (with_mark old mark)) }
        ensures misses { result ≢ old → seat.new.me.0 ≡ noted (missed seat.old.me.0) (did (slot + 1) result result) }
        ensures turn { Turn seat.old.me.0.size seat.old.me.0 seat.new.me.0 (slot + 1) result (either (result == old) (with_mark old mark) result) (of_mark 0 result old (with_mark old mark)) }
    {
        self.strike_about::<Brand>(seat, slot, old, mark)
    }

    fn strike_in<A: About>(
        &self,
        seat: &mut Place,
        place: usize,
        slot: usize,
        old: u64,
        mark: u32,
    ) -> u64
        requires about { A.place ≡ cond (slot + 1 == self.now.size.slots) (place + 1) 0 }
        requires fits { (seat.old.table_id ≡ self.now.table.shared.table_id) × (seat.old.me.1 ≡ []) × (seat.old.me.0.size ≡ self.now.size) }
        requires control { (seat.old.me.0.lead ≡ 1) × (slot < self.now.size.slots) × (seat.old.me.0.half ≡ 0) }
        requires word { (old ≢ 0) × (cancel old ≡ 0) }
        requires loaded { seat.old.me.0.about ≢ 0 → (seat.old.me.0.about ≡ slot + 1) × (seat.old.me.0.loaded ≡ old) }
        requires mark { (mark ≢ 0) × (mark < 65536) }
        requires ban { (place < self.now.size.bans) × ((ban seat.old.me.0 place).parent ≢ 0) × ((ban seat.old.me.0 place).cancel ≡ mark) }
        ensures fits { (seat.new.table_id ≡ seat.old.table_id) × (seat.new.me.1 ≡ []) }
        ensures marks { result ≡ old → seat.new.me.0 ≡ noted (struck seat.old.me.0 slot (number old)) (did (slot + 1) old (with_mark old mark)) }
        ensures misses { result ≢ old → seat.new.me.0 ≡ noted (missed seat.old.me.0) (did (slot + 1) result result) }
        ensures turn { Turn seat.old.me.0.size seat.old.me.0 seat.new.me.0 (slot + 1) result (either (result == old) (with_mark old mark) result) (of_mark (cond (slot + 1 == self.now.size.slots) (place + 1) 0) result old (with_mark old mark)) }
    {
        self.strike_about::<A>(seat, slot, old, mark)
    }

    /// The same in the scan of the ban at a place.
    pub(crate) fn strike_child(
        &self,
        seat: &mut Place,
        place: usize,
        slot: usize,
        old: u64,
        mark: u32,
    ) -> u64
        requires fits { (seat.old.table_id ≡ self.now.table.shared.table_id) × (seat.old.me.1 ≡ []) × (seat.old.me.0.size ≡ self.now.size) }
        requires control { (seat.old.me.0.lead ≡ 1) × (slot < self.now.size.slots) × (seat.old.me.0.half ≡ 0) }
        requires word { (old ≢ 0) × (cancel old ≡ 0) }
        requires about { seat.old.me.0.about ≢ 0 → (seat.old.me.0.about ≡ slot + 1) × (seat.old.me.0.loaded ≡ old) }
        requires mark { (mark ≢ 0) × (mark < 65536) }
        requires ban { (place < self.now.size.bans) × ((ban seat.old.me.0 place).parent ≢ 0) × ((ban seat.old.me.0 place).cancel ≡ mark) }
        ensures fits { (seat.new.table_id ≡ seat.old.table_id) × (seat.new.me.1 ≡ []) }
        ensures marks { result ≡ old → seat.new.me.0 ≡ noted (struck seat.old.me.0 slot (number old)) (did (slot + 1) old (with_mark old mark)) }
        ensures misses { result ≢ old → seat.new.me.0 ≡ noted (missed seat.old.me.0) (did (slot + 1) result result) }
        ensures turn { Turn seat.old.me.0.size seat.old.me.0 seat.new.me.0 (slot + 1) result (either (result == old) (with_mark old mark) result) (of_mark (cond (slot + 1 == self.now.size.slots) (place + 1) 0) result old (with_mark old mark)) }
    {
        self.strike_in::<Brand>(seat, place, slot, old, mark)
    }

    /// Loads the mask of a slot.
    pub(crate) fn load_mask(&self, seat: &mut Place, slot: usize) -> u64
        requires fits { (seat.old.table_id ≡ self.now.table.shared.table_id) × (seat.old.me.1 ≡ []) × (seat.old.me.0.size ≡ self.now.size) }
        requires control { (seat.old.me.0.lead ≡ 1) × (slot < self.now.size.slots) }
        ensures fits { (seat.new.table_id ≡ seat.old.table_id) × (seat.new.me.1 ≡ []) }
        ensures small { result < 65536 }
        ensures half { seat.new.me.0 ≡ noted (halved seat.old.me.0 slot result) (did (self.now.size.slots + self.now.size.bans + slot + 1) result result) }
        ensures turn { Turn seat.old.me.0.size seat.old.me.0 seat.new.me.0 (self.now.size.slots + self.now.size.bans + slot + 1) result result [] }
    {
        let mask = self.size.slots + self.size.bans + slot + 1;
        self.table.shared.load::<Half>(seat, mask)
    }

    /// Loads the word of a slot after its mask.
    pub(crate) fn load_masked(&self, seat: &mut Place, slot: usize) -> u64
        requires fits { (seat.old.table_id ≡ self.now.table.shared.table_id) × (seat.old.me.1 ≡ []) × (seat.old.me.0.size ≡ self.now.size) }
        requires control { (seat.old.me.0.lead ≡ 1) × (slot < self.now.size.slots) × (seat.old.me.0.half ≡ slot + 1) }
        ensures fits { (seat.new.table_id ≡ seat.old.table_id) × (seat.new.me.1 ≡ []) }
        ensures whole { cancel result ≢ 0 → seat.new.me.0 ≡ noted (with_mask seat.old.me.0 (number result)) (did (slot + 1) result result) }
        ensures none { cancel result ≡ 0 → seat.new.me.0 ≡ noted (no_mask seat.old.me.0) (did (slot + 1) result result) }
        ensures marked { result ≢ 0 → In (number result) seat.old.me.0.marked → cancel result ≢ 0 }
        ensures turn { Turn seat.old.me.0.size seat.old.me.0 seat.new.me.0 (slot + 1) result result [] }
    {
        self.table.shared.load::<Whole>(seat, slot + 1)
    }

    /// Takes the ban at a place away, and gives its word.
    pub(crate) fn lift(&self, seat: &mut Place, place: usize) -> u64
        requires fits { (seat.old.table_id ≡ self.now.table.shared.table_id) × (seat.old.me.1 ≡ []) × (seat.old.me.0.size ≡ self.now.size) }
        requires control { (seat.old.me.0.lead ≡ 1) × (length seat.old.me.0.bans ≡ self.now.size.bans) × (place < self.now.size.bans) }
        ensures fits { (seat.new.table_id ≡ seat.old.table_id) × (seat.new.me.1 ≡ []) }
        ensures word { result ≡ ban_word (ban seat.old.me.0 place).parent (ban seat.old.me.0 place).cancel }
        ensures lifts { seat.new.me.0 ≡ noted (with_ban seat.old.me.0 place no_ban) (did (self.now.size.slots + place + 1) result 0) }
        ensures turn { Turn seat.old.me.0.size seat.old.me.0 seat.new.me.0 (self.now.size.slots + place + 1) result 0 (of_unban place) }
    {
        self.table
            .shared
            .swap::<Lift>(seat, self.size.slots + place + 1, 0)
    }
}
