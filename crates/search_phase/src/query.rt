//! The query phase of a search in one shard.

ghost use Rattle.std.specs.Prelude.{◌≡◌, ◌+◌, ◌≤◌, ◌<◌, ◌*◌, ◌^◌, ◌∷◌, [], ◌++◌, ◌↔◌, ◌⊎◌, List, IsTrue, true, false, map, filter, take, length, slice_get, IfOk, IfSome, OnOk, OnErr};
ghost use Rattle.std.specs.BinaryHeap.{IsHeap, heap_items};
ghost use Rattle.task_ids.specs.declared.doc.Doc.{Doc};
ghost use Rattle.task_events.specs.Answers.{is_found, window};
ghost use Rattle.task_events.specs.HitOrder.{hit_cmp, in_hit_order, is_after};
ghost use Rattle.search_phase.specs.Queries.{IsQueried, StaysQueried, HasTurned, new_query, version_at, has_ended, has_none_left, rows_left, next_rows, with_rows, keys_of_rows, first_keys, queried, without_keys};
ghost use Rattle.std.specs.List.{AllByRecursion};
ghost use Rattle.shard_docs.specs.Numbers.{IsNumberAt};
ghost use Rattle.search_phase.specs.LookedAt.{IsFirstNumber};
ghost use Rattle.search_phase.specs.TurnAnswers.{query_answer, is_ready};

use crate::keeping::{keep_all, keep_row};
use crate::looking::{counts_all, is_after_cursor, is_found};
use shard_docs::{NumberAt, Shard, number_at};
use shared_value::Shared;
use std::alloc::{AllocError, Global};
use std::collections::BinaryHeap;
use std::marker::Model;
use std::mem::replace;
use task_events::{HitKey, ShardAsk, ShardTop};
use task_ids::{Doc, Items};

/// How many rows a turn looks at, at most.
const ROWS_PER_TURN: usize = 1024;

/// The room for the places of a turn where the version has no more rows than that. So a turn over a small shard does not clear the
/// room for 1,025 places.
const SMALL_ROOM: usize = 64;

/// What some rows have come to: how many of them match, and the keys of those that stand first after the cursor, the last of
/// them on top.
#[derive(Drop)]
struct Matches {
    count: u64,
    first: BinaryHeap<HitKey>,
}

/// What a turn of a query answers.
#[derive(Drop)]
pub enum TurnAnswer {
    /// Rows are left to look at.
    More,
    /// No row is left to look at.
    Ready(ShardTop),
}

/// The query phase of a search in one shard, after Elasticsearch's query phase: it looks at the rows of one version that
/// have what the query picks, turn by turn, counts those that match and keeps the keys of those that stand first.
#[derive(Drop)]
pub struct ShardQuery {
    alloc: Global,
    ask: Shared<ShardAsk>,
    version: Option<u32>,
    turns: u32,
    /// The place of the last row that it has looked at.
    last: Option<u32>,
    count: u64,
    /// The keys that stand first so far, the last of them on top.
    first: BinaryHeap<HitKey>,
}

impl Model for ShardQuery {
    ghost use Rattle.std.specs.BinaryHeap.{heap_items, IsHeap};
    ghost use Rattle.task_events.specs.HitOrder.{hit_cmp, in_hit_order};
    ghost use Rattle.search_phase.specs.Queries.{QueryState, IsQuery};
    ghost use Rattle.std.specs.Coded.{codes};
    ghost use Rattle.task_events.specs.contracts.request.ShardAsk as shard_ask;
    ghost use Rattle.task_events.specs.contracts.request.HitKey as hit_key;

    ghost Value = { QueryState };

    ghost coded = { Prim.hlevel (codes, shard_ask.the_row.coded, hit_key.the_row.coded) };

    ghost view = { λ q. record {
      ask = q.ask;
      version = q.version;
      turns = q.turns;
      last = q.last;
      count = q.count;
      keys = in_hit_order (heap_items q.first);
    } };

    ghost invariant = { λ q. IsHeap hit_cmp (heap_items q.first) × IsQuery (record {
      ask = q.ask;
      version = q.version;
      turns = q.turns;
      last = q.last;
      count = q.count;
      keys = in_hit_order (heap_items q.first);
    }) };
}

impl ShardQuery {
    /// No turn yet, which takes no memory.
    pub fn new(alloc: Global, ask: Shared<ShardAsk>) -> ShardQuery
        ensures new { result ≡ new_query ask }
        ensures queried { (writes : List Doc) → IsQueried result writes }
    {
        let version = ask.get().version;
        ShardQuery {
            alloc,
            ask,
            version,
            turns: 0,
            last: None,
            count: 0,
            first: BinaryHeap::new(alloc),
        }
    }

    /// What is asked for. A world finds the shard by it.
    pub fn ask(&self) -> &ShardAsk
        ensures { result.now ≡ self.now.ask }
    {
        self.ask.get()
    }

    /// Looks at the next 1,024 rows of the version that have what the query picks, or at those that are left. The first turn
    /// fixes the version, where the ask names none. It fails only for want of memory, and then nothing has changed.
    ///
    /// What it finds is what is asked for where all turns are over one shard, which may grow between them.
    pub fn turn(&mut self, shard: &Shard) -> Result<TurnAnswer, AllocError>
        requires { has_ended self.old shard.now.writes ≡ false }
        ensures turned { OnOk result (HasTurned self.old shard.now.writes self.new) }
        ensures ready { IfOk result (λ answer. is_ready answer ≡ has_none_left self.new shard.now.writes) }
        ensures ok { IsQueried self.old shard.now.writes
            → OnOk result (self.new ≡ queried self.old.ask (version_at self.old shard.now.writes) (self.old.turns + 1) shard.now.writes) }
        ensures goes_on { IsQueried self.old shard.now.writes → OnOk result (IsQueried self.new shard.now.writes) }
        ensures stays { IsQueried self.old shard.now.writes → OnOk result (StaysQueried self.new shard.now.writes) }
        ensures answer { IsQueried self.old shard.now.writes
            → IfOk result (λ answer. answer ≡ query_answer self.new shard.now.writes) }
        ensures err { OnErr result (self.new ≡ self.old) }
    {
        let version = self.version.unwrap_or(shard.version());
        if self.look_on(shard, version)? {
            return Ok(TurnAnswer::More);
        }
        Ok(TurnAnswer::Ready(self.give_top(version)))
    }

    /// Looks at the rows of its next turn, and tells whether rows are left after them.
    fn look_on(&mut self, shard: &Shard, version: u32) -> Result<bool, AllocError>
        requires reads { version ≡ version_at self.old shard.now.writes }
        requires few { self.old.turns * 1024 ≤ version }
        ensures ok { OnOk result (self.new ≡ with_rows self.old version (next_rows self.old version shard.now.writes)) }
        ensures more { IfOk result (λ more. IsTrue more ↔ (1024 < length (rows_left self.old version shard.now.writes))) }
        ensures err { OnErr result (self.new ≡ self.old) }
    {
        if version as usize <= SMALL_ROOM {
            return self.look_within(shard, version, &mut [0; SMALL_ROOM]);
        }
        self.look_within(shard, version, &mut [0; ROWS_PER_TURN + 1])
    }

    /// Looks at the rows of its next turn, whose places come into this room. There is room for one place more than a turn has, or
    /// else for all rows of the version, so it is known whether rows are left.
    fn look_within(
        &mut self,
        shard: &Shard,
        version: u32,
        places: &mut [u32],
    ) -> Result<bool, AllocError>
        requires reads { version ≡ version_at self.old shard.now.writes }
        requires few { self.old.turns * 1024 ≤ version }
        requires room { (1024 < length places.old) ⊎ (version ≤ length places.old) }
        ensures ok { OnOk result (self.new ≡ with_rows self.old version (next_rows self.old version shard.now.writes)) }
        ensures more { IfOk result (λ more. IsTrue more ↔ (1024 < length (rows_left self.old version shard.now.writes))) }
        ensures err { OnErr result (self.new ≡ self.old) }
    {
        let pick = self.ask.get().body.get().query.pick();
        let left = shard.candidates(version, pick, self.last, places);
        let here = left.min(ROWS_PER_TURN);
        self.look(shard, version, &places[..here])?;
        Ok(here < left)
    }

    /// Looks at the rows of its next turn, which have these places.
    fn look(&mut self, shard: &Shard, version: u32, places: &[u32]) -> Result<(), AllocError>
        requires next { places.now ≡ map (λ row. row.0) (next_rows self.old version shard.now.writes) }
        requires reads { version ≡ version_at self.old shard.now.writes }
        requires few { self.old.turns * 1024 ≤ version }
        ensures ok { OnOk result (self.new ≡ with_rows self.old version (next_rows self.old version shard.now.writes)) }
        ensures err { OnErr result (self.new ≡ self.old) }
    {
        let found = self.find(shard, version, places)?;
        let most = self.most();
        keep_all(&mut self.first, most, found.first.into_vec())?;
        self.version = Some(version);
        self.turns += 1;
        self.last = places.last().copied().or(self.last);
        self.count += found.count;
        Ok(())
    }

    /// How many keys are kept, at most.
    fn most(&self) -> usize
        ensures { result ≡ window self.now.ask.body }
    {
        let body = self.ask.get().body.get();
        body.from as usize + body.size as usize
    }

    /// What the rows of its next turn come to.
    fn find(&self, shard: &Shard, version: u32, places: &[u32]) -> Result<Matches, AllocError>
        requires { places.now ≡ map (λ row. row.0) (next_rows self.now version shard.now.writes) }
        ensures ordered { IfOk result (λ found. IsHeap hit_cmp (heap_items found.first)) }
        ensures count { IfOk result (λ found.
            found.count ≡ length (keys_of_rows self.now.ask (next_rows self.now version shard.now.writes))) }
        ensures first { IfOk result (λ found. in_hit_order (heap_items found.first)
            ≡ first_keys self.now.ask (keys_of_rows self.now.ask (next_rows self.now version shard.now.writes))) }
    {
        let most = self.most();
        let all = counts_all(self.ask.get());
        let mut found = Matches {
            count: 0,
            first: BinaryHeap::new(self.alloc),
        };
        if all && most == 0 {
            found.count = places.len() as u64;
            return Ok(found);
        }
        let numbers = self.numbers(shard, version);
        for place in places {
            let Some(doc) = shard.row(version, *place) else {
                unreachable!()
            };
            self.add(&mut found, all, *place, doc, number_at(numbers, *place))?;
        }
        Ok(found)
    }

    /// The numbers that rows have at the first field of the sort, as far as they are known.
    fn numbers<'s>(&self, shard: &'s Shard, version: u32) -> &'s [NumberAt]
        ensures { IfSome (slice_get self.now.ask.body.sort 0) (λ by. AllByRecursion (IsNumberAt by.field version shard.now.writes) result.now) }
    {
        match self.ask.get().body.get().sort.as_slice().first() {
            Some(by) => shard.numbers(version, by.field.as_str()),
            None => &[],
        }
    }

    /// Adds a row to what others have come to, where it matches. All rows match for certain where that is said.
    fn add(
        &self,
        found: &mut Matches,
        all: bool,
        place: u32,
        doc: &Doc,
        number: Option<i64>,
    ) -> Result<(), AllocError>
        requires certain { all ≡ true → is_found self.now.ask.body self.now.ask.slice doc.now ≡ true }
        requires ordered { IsHeap hit_cmp (heap_items found.old.first) }
        requires few { length (heap_items found.old.first) ≤ window self.now.ask.body }
        requires low { found.old.count < 2 ^ 32 }
        requires number { IsFirstNumber self.now.ask.body.sort doc.now number }
        ensures count { OnOk result (found.new.count ≡ found.old.count + length (keys_of_rows self.now.ask ((place, doc.now) ∷ []))) }
        ensures still_ordered { OnOk result (IsHeap hit_cmp (heap_items found.new.first)) }
        ensures still_few { OnOk result (length (heap_items found.new.first) ≤ window self.now.ask.body) }
        ensures first { OnOk result (in_hit_order (heap_items found.new.first) ≡ take (window self.now.ask.body)
            (in_hit_order (heap_items found.old.first ++ filter (is_after self.now.ask.after) (keys_of_rows self.now.ask ((place, doc.now) ∷ []))))) }
    {
        let ask = self.ask.get();
        if !all && !is_found(ask, doc) {
            return Ok(());
        }
        found.count += 1;
        if is_after_cursor(ask, place, doc, number) {
            keep_row(
                self.alloc,
                &mut found.first,
                self.most(),
                ask,
                place,
                doc,
                number,
            )?;
        }
        Ok(())
    }

    fn give_top(&mut self, version: u32) -> ShardTop
        ensures top { result ≡ record { shard = self.old.ask.shard; version = version; count = self.old.count; keys = self.old.keys } }
        ensures given { self.new ≡ without_keys self.old }
    {
        let first = replace(&mut self.first, BinaryHeap::new(self.alloc));
        ShardTop {
            shard: self.ask.get().shard,
            version,
            count: self.count,
            keys: Items::from_vec(first.into_sorted_vec()),
        }
    }
}
