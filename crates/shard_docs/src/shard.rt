ghost use Rattle.std.specs.Prelude.{◌≡◌, ℕ, ◌<◌, ◌≤◌, ◌+◌, ◌-◌, ◌^◌, max, nat_lt, nat_le, ◌∷◌, [], ◌++◌, if◌then◌else◌, length, take, filter, count_by, true, false, Some, None, option_copied, option_map, IfOk, IfSome, OnOk, OnErr};
ghost use Rattle.task_ids.specs.Rows.{row_at};
ghost use Rattle.query_match.specs.Picks.{picked};
ghost use Rattle.query_match.specs.Values.{is_key};
ghost use Rattle.std.specs.List.{AllByRecursion};
ghost use Rattle.std.specs.List.Sorted.{IsNonDecreasing};
ghost use Rattle.shard_docs.specs.Numbers.{IsNumberAt, AreNumbersOf};
ghost use Rattle.shard_docs.specs.Candidates.{next_places, living_row, is_candidate, is_above};
ghost use Rattle.shard_docs.specs.Written.{outcome_of};
ghost use Rattle.shard_docs.specs.Places.{IsIndexOf, IsExactFor};
ghost use Rattle.shard_docs.specs.Shown.{ShowsFrom};
ghost use Rattle.shard_docs.specs.ShardView.{empty_shard, dead_rows, has_dead};

use crate::index::{Index, places_above};
use crate::numbers::{NumberAt, Numbers};
use crate::rows::Rows;
use doc_match::has_picked;
use query_match::Pick;
use std::alloc::{AllocError, Global};
use std::collections::{HashMap, VecDeque};
use std::marker::Model;
use task_ids::Doc;

/// How many rows a shard holds at most.
const MAX_ROWS: usize = 4_294_967_295;

/// What a write did.
#[derive(Clone, Copy, PartialEq, Eq)]
pub enum Written {
    /// No document of this id was alive.
    Created,
    /// It took the place of a document of this id.
    Updated,
}

/// A shard of an index: the documents that were written to it, in order, of which a newer one takes the place of an
/// older one of its id. Contracts see the list of all writes, and a version: the rows that are dead there are forgotten
/// (`ShardView`). It can be read as of any version, which is a number of
/// first writes.
///
/// Rows that died before a version can be forgotten: `purge`. A write that is forgotten is seen as one of the next
/// document, which takes its place at once, so what is alive from that version on is as before.
#[derive(Drop)]
pub struct Shard {
    rows: Rows,
    /// The place of the living row of each id.
    living: HashMap<String, u32>,
    /// The places of the rows that are not forgotten, dead ones too, by the values of their fields.
    index: Index,
    /// Numbers that rows have at their fields, of those that are not forgotten and perhaps of others.
    numbers: Numbers,
    /// The versions at which the rows died that are not forgotten, in order.
    deaths: VecDeque<u32>,
    /// How many rows were forgotten since memory was given back.
    forgotten: usize,
    /// A write for which memory ran out may have left places in the index of rows that have not the value.
    spoiled: bool,
}

impl Model for Shard {
    ghost use Rattle.std.specs.Prelude.{◌≡◌, ◌≤◌, map, length, false};
    ghost use Rattle.shard_docs.specs.ShardView.{ShardView, coded_shard};

    ghost Value = { ShardView };

    ghost coded = { coded_shard };

    ghost use Rattle.shard_docs.specs.Tables.{IsTables, AreDeaths};
    ghost use Rattle.shard_docs.specs.Places.{IsIndexOf, IsExactFor};
    ghost use Rattle.shard_docs.specs.Numbers.{AreNumbersOf};

    ghost view = { λ s. record { writes = map (λ row. row.doc) s.rows.rows; oldest = s.rows.oldest } };

    ghost invariant = { λ s. (IsTables s.rows.rows s.living × (s.rows.oldest ≤ length s.rows.rows) × IsIndexOf s.rows s.index
        × (s.spoiled ≡ false → IsExactFor s.rows s.index) × AreNumbersOf s.rows s.numbers)
        × AreDeaths s.rows.oldest (map (λ row. row.doc) s.rows.rows) s.deaths.items };
}

impl Shard {
    /// No write yet, which takes no memory.
    pub fn new(alloc: Global) -> Shard
        ensures { result ≡ empty_shard }
    {
        Shard {
            rows: Rows::new(alloc),
            living: HashMap::new(alloc),
            index: Index::new(alloc),
            numbers: Numbers::new(alloc),
            deaths: VecDeque::new(alloc),
            forgotten: 0,
            spoiled: false,
        }
    }

    /// Writes a document. Its row stands last; the living row of its id, if there is one, dies at this version.
    /// It fails only for want of memory, or where the shard has 4,294,967,295 rows, and then nothing has changed.
    pub fn write(&mut self, doc: Doc) -> Result<Written, AllocError>
        ensures outcome { IfOk result (λ written. written ≡ outcome_of doc.id self.old.writes) }
        ensures ok { OnOk result (self.new.writes ≡ self.old.writes ++ doc ∷ []) }
        ensures oldest { self.new.oldest ≡ self.old.oldest }
        ensures err { OnErr result (self.new.writes ≡ self.old.writes) }
    {
        let place = self.rows.len();
        if place == MAX_ROWS {
            return Err(AllocError);
        }
        // until the row of the new places stands
        let was_spoiled = self.spoiled;
        self.spoiled = true;
        self.index.add(&doc.source, place as u32)?;
        let id = String::from_str(*self.rows.allocator(), doc.id.get().as_str())?;
        self.rows.reserve()?;
        self.deaths.reserve(1)?;
        let Ok(replaced) = self.living.insert(id, place as u32) else {
            return Err(AllocError);
        };
        self.numbers.add(&doc.source, place as u32);
        self.rows.push(doc);
        self.spoiled = was_spoiled;
        let Some(replaced) = replaced else {
            return Ok(Written::Created);
        };
        self.rows.kill(replaced, place as u32 + 1);
        self.deaths.push_back_reserved(place as u32 + 1);
        Ok(Written::Updated)
    }

    /// Forgets the rows that are dead at a version, and tells how many it forgets now. From that version on the same rows
    /// are alive as before, and each has its place; what a lower version shows is not said. It takes no memory that it
    /// must have, and a step for each row that it forgets. At times the memory of all that is forgotten is given back,
    /// which takes a step for each row that is kept, at most as many as were forgotten since.
    pub fn purge(&mut self, oldest: u32) -> u32
        requires { oldest ≤ length self.old.writes }
        ensures shows { ShowsFrom oldest self.old.writes self.new.writes }
        ensures oldest { self.new.oldest ≡ max self.old.oldest oldest }
        ensures count { result ≡ dead_rows oldest self.old.writes - dead_rows self.old.oldest self.old.writes }
    {
        if oldest <= self.rows.oldest() {
            return 0;
        }
        let count = take_deaths(&mut self.deaths, oldest);
        self.rows.forget(oldest);
        self.forgotten = self.forgotten.saturating_add(count as usize);
        if self.forgotten > self.rows.stored() / 2 {
            self.give_back();
        }
        count
    }

    /// Whether a row has died that is not forgotten.
    pub fn has_dead(&self) -> bool
        ensures { result ≡ has_dead self.now }
    {
        !self.deaths.is_empty()
    }

    /// Gives the memory of forgotten rows back.
    fn give_back(&mut self)
        ensures { self.new ≡ self.old }
    {
        self.rows.sweep();
        self.forgotten = 0;
        self.numbers = numbers_of(&self.rows);
        // where memory runs out the index stays as it is
        if let Ok(index) = index_of(&self.rows) {
            self.index = index;
            self.spoiled = false;
        }
    }

    /// The number of writes so far.
    pub fn version(&self) -> u32
        ensures { result ≡ length self.now.writes }
    {
        self.rows.len() as u32
    }

    /// The number of places, from 0. Each write has one.
    pub fn rows(&self) -> u32
        ensures { result ≡ length self.now.writes }
    {
        self.rows.len() as u32
    }

    /// The row of a place, if it was alive at a version.
    pub fn row(&self, version: u32, place: u32) -> Option<&Doc>
        ensures { option_copied result ≡ row_at version place self.now.writes }
    {
        if place < version {
            self.rows.alive(version, place)
        } else {
            None
        }
    }

    /// The place and the document of the row of an id that is alive at the newest version. `None` where no row of it is
    /// alive.
    pub fn living(&self, id: &[u8]) -> Option<(u32, &Doc)>
        ensures { option_map (λ found. (found.0, found.1.now)) result ≡ living_row id.now self.now.writes }
    {
        let living = &self.living;
        let Ok(id) = str::from_utf8(id) else {
            return None;
        };
        let place = *living.get(id)?;
        Some((place, self.rows.doc(place)))
    }

    /// Of rows whose one value at a field is a number, the number and the place: of those that are known, ascending by place,
    /// at a field without a dot.
    pub fn numbers(&self, version: u32, field: &str) -> &[NumberAt]
        ensures { AllByRecursion (IsNumberAt field.now version self.now.writes) result.now }
    {
        // nothing is known of rows that are forgotten
        if self.rows.oldest() <= version {
            self.numbers.at(field)
        } else {
            &[]
        }
    }

    /// The next places above one, or from the first on, ascending, of rows that are alive at a version and have what is
    /// picked, a value at a field without a dot, where something is. It fills `out` from its start and tells how many
    /// there are: fewer than there is room for only where no more are left.
    pub fn candidates(
        &self,
        version: u32,
        pick: Option<Pick<'_>>,
        after: Option<u32>,
        out: &mut [u32],
    ) -> usize
        requires { IfSome pick (λ p. is_key p.field.now ≡ true) }
        ensures count { result ≡ length (take (length out.old) (next_places (option_map picked pick.entry) version after self.now.writes)) }
        ensures places { take result out.new ≡ take (length out.old) (next_places (option_map picked pick.entry) version after self.now.writes) }
    {
        match pick {
            Some(pick) => self.picked_places(version, pick, after, out),
            None => self.all_places(version, None, after, out),
        }
    }

    /// The first places above one of rows that are alive at a version and have what is picked.
    fn picked_places(
        &self,
        version: u32,
        pick: Pick<'_>,
        after: Option<u32>,
        out: &mut [u32],
    ) -> usize
        requires { is_key pick.field.now ≡ true }
        ensures count { result ≡ length (take (length out.old) (next_places (Some (picked pick.entry)) version after self.now.writes)) }
        ensures places { take result out.new ≡ take (length out.old) (next_places (Some (picked pick.entry)) version after self.now.writes) }
    {
        // the index knows nothing of rows that are forgotten
        if version < self.rows.oldest() {
            return self.all_places(version, Some(pick), after, out);
        }
        let places = places_above(self.index.places(pick.field.as_str(), pick.value), after);
        if self.spoiled {
            return self.candidates_among(version, Some(pick), places, out);
        }
        // the rows have what is picked, so none has to be looked into
        self.candidates_among(version, None, places, out)
    }

    /// The first of some places at which rows are candidates.
    fn candidates_among(
        &self,
        version: u32,
        pick: Option<Pick<'_>>,
        places: &[u32],
        out: &mut [u32],
    ) -> usize
        requires { IfSome pick (λ p. is_key p.field.now ≡ true) }
        ensures count { result ≡ length (take (length out.old) (filter (is_candidate (option_map picked pick.entry) version self.now.writes) places.now)) }
        ensures places { take result out.new ≡ take (length out.old) (filter (is_candidate (option_map picked pick.entry) version self.now.writes) places.now) }
    {
        let mut count = 0;
        for place in places {
            if count == out.len() {
                return count;
            }
            let is_chosen = self.is_candidate(version, pick, *place);
            count = put(out, count, *place, is_chosen);
        }
        count
    }

    /// The first places above one of rows that are alive at a version and have what is picked, where something is: each
    /// row is looked at.
    fn all_places(
        &self,
        version: u32,
        pick: Option<Pick<'_>>,
        after: Option<u32>,
        out: &mut [u32],
    ) -> usize
        requires { IfSome pick (λ p. is_key p.field.now ≡ true) }
        ensures count { result ≡ length (take (length out.old) (next_places (option_map picked pick.entry) version after self.now.writes)) }
        ensures places { take result out.new ≡ take (length out.old) (next_places (option_map picked pick.entry) version after self.now.writes) }
    {
        let mut count = 0;
        for place in first_above(after)..version.min(self.rows()) {
            if count == out.len() {
                return count;
            }
            let is_chosen = self.is_candidate(version, pick, place);
            count = put(out, count, place, is_chosen);
        }
        count
    }

    /// The row of a place is alive at a version and has what is picked, where something is.
    fn is_candidate(&self, version: u32, pick: Option<Pick<'_>>, place: u32) -> bool
        requires { IfSome pick (λ p. is_key p.field.now ≡ true) }
        ensures { result ≡ is_candidate (option_map picked pick.entry) version self.now.writes place }
    {
        match (self.row(version, place), pick) {
            (Some(doc), Some(pick)) => has_picked(pick, &doc.source),
            (Some(_), None) => true,
            (None, _) => false,
        }
    }
}

/// Takes those of some versions out that are not above one, and tells how many. They stand in order.
fn take_deaths(deaths: &mut VecDeque<u32>, oldest: u32) -> u32
    requires ascend { IsNonDecreasing deaths.old.items }
    requires few { length deaths.old.items < 2 ^ 32 }
    ensures count { result ≡ count_by (λ died. nat_le died oldest) deaths.old.items }
    ensures left { deaths.new.items ≡ filter (λ died. nat_lt oldest died) deaths.old.items }
{
    let len = deaths.len() as u32;
    for count in 0..len {
        match deaths.front() {
            Some(died) if *died <= oldest => {
                deaths.pop_front();
            }
            _ => return count,
        }
    }
    len
}

/// The index of some rows. It fails only for want of memory.
fn index_of(rows: &Rows) -> Result<Index, AllocError>
    ensures has { IfOk result (λ index. IsIndexOf rows.now index) }
    ensures exact { IfOk result (λ index. IsExactFor rows.now index) }
{
    let mut index = Index::new(*rows.allocator());
    for row in rows.kept() {
        index.add(&row.doc.source, row.place)?;
    }
    Ok(index)
}

/// The numbers of some rows. Where memory runs out some are missing.
fn numbers_of(rows: &Rows) -> Numbers
    ensures { AreNumbersOf rows.now result }
{
    let mut numbers = Numbers::new(*rows.allocator());
    for row in rows.kept() {
        numbers.add(&row.doc.source, row.place);
    }
    numbers
}

/// The first place above one, if a row can have it.
fn first_above(after: Option<u32>) -> u32
    ensures below { (p : ℕ) → p < result → is_above after p ≡ false }
    ensures from { (p : ℕ) → result ≤ p → p < 2 ^ 32 - 1 → is_above after p ≡ true }
{
    match after {
        Some(after) => after.saturating_add(1),
        None => 0,
    }
}

/// Puts a place behind the first ones, where it is chosen, and tells how many there are now.
fn put(places: &mut [u32], count: usize, place: u32, is_chosen: bool) -> usize
    requires { count < length places.old }
    ensures count { result ≡ count + (if is_chosen then 1 else 0) }
    ensures places { take result places.new ≡ take count places.old ++ (if is_chosen then place ∷ [] else []) }
    ensures len { length places.new ≡ length places.old }
{
    if !is_chosen {
        return count;
    }
    places[count] = place;
    count + 1
}
