//! The steps of a data seat.
ghost use Rattle.std.specs.Prelude.{◌≡◌, ◌≢◌, ℕ, ◌+◌, ◌*◌, ◌-◌, ◌%◌, ◌^◌, ◌<◌, ◌≤◌, ◌⊎◌, [], ◌==◌, length, slice_index, bit_or, bit_and};
ghost use prog.Atomic.{either};
ghost use Rattle.race_board.specs.Words.{number, parent, cancel, banned, by};
ghost use Rattle.race_board.specs.Board.{hold, no_hold};
ghost use Rattle.race_board.specs.Steps.{noted, did, drew, refused, took, with_hold, with_check, seeking, cleared_hold, kept_hold};
ghost use Rattle.race_board.specs.StepEvents.{of_claim, of_check, of_end, of_look, of_track_look};
ghost use Rattle.race_board.specs.Turn.{Turn, MayBan, MayMark};
ghost use Rattle.race_board.specs.declared.views.Progress.TheVariants.{Next, Clear, Banned};

use crate::board_words::BoardWords;
use crate::name::About;
use crate::plays::{Check, Claim, Draw, End, Look, Track, TrackLook, Untrack};
use crate::rule::Place;
use std::marker::Brand;
use task_ids::BoardName;

impl<N: BoardName> BoardWords<N> {
    /// Adds 1 to the counter, and gives what it was.
    pub(crate) fn draw(&self, seat: &mut Place) -> u64
        requires fits { (seat.old.table_id ≡ self.now.table.shared.table_id) × (seat.old.me.1 ≡ []) × (seat.old.me.0.size ≡ self.now.size) }
        requires data { (seat.old.me.0.lead ≡ 0) × (seat.old.me.0.drawn ≡ 0) × (seat.old.me.0.told ≡ 0) }
        ensures fits { (seat.new.table_id ≡ seat.old.table_id) × (seat.new.me.1 ≡ []) }
        ensures given { result < 1048575 → seat.new.me.0 ≡ noted (drew seat.old.me.0 (result + 1)) (did 0 result (result + 1)) }
        ensures spent { 1048575 ≤ result → seat.new.me.0 ≡ noted (refused seat.old.me.0) (did 0 result (result + 1)) }
        ensures turn { Turn seat.old.me.0.size seat.old.me.0 seat.new.me.0 0 result ((result + 1) % 2 ^ 64) [] }
    {
        self.table.shared.fetch_add::<Draw>(seat, 0, 1)
    }

    /// Puts the word into a slot where it is free, and gives what the slot was.
    pub(crate) fn claim(&self, seat: &mut Place, slot: usize, word: u64) -> u64
        requires fits { (seat.old.table_id ≡ self.now.table.shared.table_id) × (seat.old.me.1 ≡ []) × (seat.old.me.0.size ≡ self.now.size) }
        requires data { (seat.old.me.0.lead ≡ 0) × (length seat.old.me.0.held ≡ self.now.size.slots) × (slot < self.now.size.slots) }
        requires word { (seat.old.me.0.drawn ≢ 0) × (number word ≡ seat.old.me.0.drawn) × (cancel word ≡ 0) }
        ensures fits { (seat.new.table_id ≡ seat.old.table_id) × (seat.new.me.1 ≡ []) }
        ensures takes { result ≡ 0 → seat.new.me.0 ≡ noted (took seat.old.me.0 slot word) (did (slot + 1) 0 word) }
        ensures taken { result ≢ 0 → seat.new.me.0 ≡ noted seat.old.me.0 (did (slot + 1) result result) }
        ensures free { result ≡ 0 → (hold seat.old.me.0 slot).number ≡ 0 }
        ensures alone { (i : ℕ) → (hold seat.old.me.0 i).number ≢ 0 → (hold seat.old.me.0 i).number ≢ seat.old.me.0.drawn }
        ensures turn { Turn seat.old.me.0.size seat.old.me.0 seat.new.me.0 (slot + 1) result (either (result == 0) word result) (of_claim result word) }
    {
        self.table
            .shared
            .compare_exchange::<Claim>(seat, slot + 1, 0, word)
    }

    fn check_about<A: About>(&self, seat: &mut Place, slot: usize, place: usize) -> u64
        requires about { slot ≡ A.slot }
        requires fits { (seat.old.table_id ≡ self.now.table.shared.table_id) × (seat.old.me.1 ≡ []) × (seat.old.me.0.size ≡ self.now.size) }
        requires data { (seat.old.me.0.lead ≡ 0) × (length seat.old.me.0.held ≡ self.now.size.slots) × (place < self.now.size.bans) }
        requires ticket { ((hold seat.old.me.0 slot).number ≢ 0) × ((place ≡ 0) ⊎ ((hold seat.old.me.0 slot).check ≡ Next place)) }
        ensures fits { (seat.new.table_id ≡ seat.old.table_id) × (seat.new.me.1 ≡ []) }
        ensures banned { banned result ≡ (hold seat.old.me.0 slot).parent → seat.new.me.0 ≡ noted (with_check seat.old.me.0 slot (Banned (by result))) (did (self.now.size.slots + place + 1) result result) }
        ensures clear { banned result ≢ (hold seat.old.me.0 slot).parent → place + 1 ≡ self.now.size.bans → seat.new.me.0 ≡ noted (with_check seat.old.me.0 slot Clear) (did (self.now.size.slots + place + 1) result result) }
        ensures next { banned result ≢ (hold seat.old.me.0 slot).parent → place + 1 ≢ self.now.size.bans → seat.new.me.0 ≡ noted (with_check seat.old.me.0 slot (Next (place + 1))) (did (self.now.size.slots + place + 1) result result) }
        ensures turn { Turn seat.old.me.0.size seat.old.me.0 seat.new.me.0 (self.now.size.slots + place + 1) result result (of_check (hold seat.old.me.0 slot) (self.now.size.slots + place + 1) (seat.old.me.0.size.slots + seat.old.me.0.size.bans) result) }
        ensures allowed { MayBan N.allowed result }
    {
        self.table
            .shared
            .load::<Check<N, A>>(seat, self.size.slots + place + 1)
    }

    /// Loads a ban place for the check of the ticket at a slot.
    pub(crate) fn check(&self, seat: &mut Place, slot: usize, place: usize) -> u64
        requires fits { (seat.old.table_id ≡ self.now.table.shared.table_id) × (seat.old.me.1 ≡ []) × (seat.old.me.0.size ≡ self.now.size) }
        requires data { (seat.old.me.0.lead ≡ 0) × (length seat.old.me.0.held ≡ self.now.size.slots) × (place < self.now.size.bans) }
        requires ticket { ((hold seat.old.me.0 slot).number ≢ 0) × ((place ≡ 0) ⊎ ((hold seat.old.me.0 slot).check ≡ Next place)) }
        ensures fits { (seat.new.table_id ≡ seat.old.table_id) × (seat.new.me.1 ≡ []) }
        ensures banned { banned result ≡ (hold seat.old.me.0 slot).parent → seat.new.me.0 ≡ noted (with_check seat.old.me.0 slot (Banned (by result))) (did (self.now.size.slots + place + 1) result result) }
        ensures clear { banned result ≢ (hold seat.old.me.0 slot).parent → place + 1 ≡ self.now.size.bans → seat.new.me.0 ≡ noted (with_check seat.old.me.0 slot Clear) (did (self.now.size.slots + place + 1) result result) }
        ensures next { banned result ≢ (hold seat.old.me.0 slot).parent → place + 1 ≢ self.now.size.bans → seat.new.me.0 ≡ noted (with_check seat.old.me.0 slot (Next (place + 1))) (did (self.now.size.slots + place + 1) result result) }
        ensures turn { Turn seat.old.me.0.size seat.old.me.0 seat.new.me.0 (self.now.size.slots + place + 1) result result (of_check (hold seat.old.me.0 slot) (self.now.size.slots + place + 1) (seat.old.me.0.size.slots + seat.old.me.0.size.bans) result) }
        ensures allowed { MayBan N.allowed result }
    {
        self.check_about::<Brand>(seat, slot, place)
    }

    /// Frees the slot of a ticket, and gives its word.
    pub(crate) fn end(&self, seat: &mut Place, slot: usize) -> u64
        requires fits { (seat.old.table_id ≡ self.now.table.shared.table_id) × (seat.old.me.1 ≡ []) × (seat.old.me.0.size ≡ self.now.size) }
        requires data { (seat.old.me.0.lead ≡ 0) × (length seat.old.me.0.held ≡ self.now.size.slots) × (slot < self.now.size.slots) }
        requires ticket { (hold seat.old.me.0 slot).number ≢ 0 }
        ensures fits { (seat.new.table_id ≡ seat.old.table_id) × (seat.new.me.1 ≡ []) }
        ensures word { (number result ≡ (hold seat.old.me.0 slot).number) × (parent result ≡ (hold seat.old.me.0 slot).parent) }
        ensures ends { seat.new.me.0 ≡ noted (with_hold seat.old.me.0 slot no_hold) (did (slot + 1) result 0) }
        ensures turn { Turn seat.old.me.0.size seat.old.me.0 seat.new.me.0 (slot + 1) result 0 (of_end (hold seat.old.me.0 slot) (hold seat.old.me.0 slot).check) }
        ensures allowed { MayMark N.allowed result }
    {
        self.table.shared.swap::<End<N>>(seat, slot + 1, 0)
    }

    /// Loads the word of a ticket, before a turn of its work.
    pub(crate) fn look(&self, seat: &mut Place, slot: usize) -> u64
        requires fits { (seat.old.table_id ≡ self.now.table.shared.table_id) × (seat.old.me.1 ≡ []) × (seat.old.me.0.size ≡ self.now.size) }
        requires data { (seat.old.me.0.lead ≡ 0) × (slot < self.now.size.slots) }
        requires ticket { (hold seat.old.me.0 slot).number ≢ 0 }
        ensures fits { (seat.new.table_id ≡ seat.old.table_id) × (seat.new.me.1 ≡ []) }
        ensures word { (number result ≡ (hold seat.old.me.0 slot).number) × (parent result ≡ (hold seat.old.me.0 slot).parent) }
        ensures looks { seat.new.me.0 ≡ noted seat.old.me.0 (did (slot + 1) result result) }
        ensures turn { Turn seat.old.me.0.size seat.old.me.0 seat.new.me.0 (slot + 1) result result (of_look (hold seat.old.me.0 slot) result) }
        ensures allowed { MayMark N.allowed result }
    {
        self.table.shared.load::<Look<N>>(seat, slot + 1)
    }

    /// Loads the word of a ticket, after a node's bit was set in its mask.
    pub(crate) fn track_look(&self, seat: &mut Place, slot: usize) -> u64
        requires fits { (seat.old.table_id ≡ self.now.table.shared.table_id) × (seat.old.me.1 ≡ []) × (seat.old.me.0.size ≡ self.now.size) }
        requires data { (seat.old.me.0.lead ≡ 0) × (length seat.old.me.0.held ≡ self.now.size.slots) × (slot < self.now.size.slots) }
        requires ticket { (hold seat.old.me.0 slot).number ≢ 0 }
        ensures fits { (seat.new.table_id ≡ seat.old.table_id) × (seat.new.me.1 ≡ []) }
        ensures cleared { cancel result ≡ 0 → seat.new.me.0 ≡ noted (with_hold seat.old.me.0 slot (cleared_hold (hold seat.old.me.0 slot))) (did (slot + 1) result result) }
        ensures marked { cancel result ≢ 0 → seat.new.me.0 ≡ noted (with_hold seat.old.me.0 slot (seeking (hold seat.old.me.0 slot) 0)) (did (slot + 1) result result) }
        ensures turn { Turn seat.old.me.0.size seat.old.me.0 seat.new.me.0 (slot + 1) result result (of_track_look (hold seat.old.me.0 slot) result) }
        ensures allowed { MayMark N.allowed result }
    {
        self.table.shared.load::<TrackLook<N>>(seat, slot + 1)
    }

    /// Sets bits in the mask of a ticket, and gives what it was.
    pub(crate) fn set_bits(&self, seat: &mut Place, slot: usize, bits: u64) -> u64
        requires fits { (seat.old.table_id ≡ self.now.table.shared.table_id) × (seat.old.me.1 ≡ []) × (seat.old.me.0.size ≡ self.now.size) }
        requires data { (seat.old.me.0.lead ≡ 0) × (length seat.old.me.0.held ≡ self.now.size.slots) × (slot < self.now.size.slots) }
        requires ticket { ((hold seat.old.me.0 slot).number ≢ 0) × ((hold seat.old.me.0 slot).seek ≡ 0) }
        requires nodes { bits < 65536 }
        ensures fits { (seat.new.table_id ≡ seat.old.table_id) × (seat.new.me.1 ≡ []) }
        ensures sets { seat.new.me.0 ≡ noted (with_hold seat.old.me.0 slot (seeking (hold seat.old.me.0 slot) bits)) (did (self.now.size.slots + self.now.size.bans + slot + 1) result (bit_or result bits)) }
        ensures turn { Turn seat.old.me.0.size seat.old.me.0 seat.new.me.0 (self.now.size.slots + self.now.size.bans + slot + 1) result (bit_or result bits) [] }
    {
        let mask = self.size.slots + self.size.bans + slot + 1;
        self.table.shared.fetch_or::<Track>(seat, mask, bits)
    }

    /// Leaves only these bits in the mask of a ticket, and gives what it was.
    pub(crate) fn keep_bits(&self, seat: &mut Place, slot: usize, bits: u64) -> u64
        requires fits { (seat.old.table_id ≡ self.now.table.shared.table_id) × (seat.old.me.1 ≡ []) × (seat.old.me.0.size ≡ self.now.size) }
        requires data { (seat.old.me.0.lead ≡ 0) × (length seat.old.me.0.held ≡ self.now.size.slots) × (slot < self.now.size.slots) }
        requires ticket { (hold seat.old.me.0 slot).number ≢ 0 }
        ensures fits { (seat.new.table_id ≡ seat.old.table_id) × (seat.new.me.1 ≡ []) }
        ensures keeps { seat.new.me.0 ≡ noted (with_hold seat.old.me.0 slot (kept_hold (hold seat.old.me.0 slot) bits)) (did (self.now.size.slots + self.now.size.bans + slot + 1) result (bit_and result bits)) }
        ensures turn { Turn seat.old.me.0.size seat.old.me.0 seat.new.me.0 (self.now.size.slots + self.now.size.bans + slot + 1) result (bit_and result bits) [] }
    {
        let mask = self.size.slots + self.size.bans + slot + 1;
        self.table.shared.fetch_and::<Untrack>(seat, mask, bits)
    }
}
