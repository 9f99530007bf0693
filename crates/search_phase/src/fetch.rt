//! The fetch phase of a search in one shard.

ghost use Rattle.std.specs.Prelude.{◌≡◌, ◌+◌, ◌≤◌, List, [], ◌∷◌, ◌++◌, false, length, filter_map, slice_range, IfOk, OnOk, OnErr};
ghost use Rattle.task_ids.specs.declared.doc.Doc.{Doc};
ghost use Rattle.task_events.specs.Answers.{hit_at};
ghost use Rattle.search_phase.specs.Fetches.{IsFetched, StaysFetched, HasTurned, new_fetch, has_fetched, fetched_in};
ghost use Rattle.search_phase.specs.TurnAnswers.{fetch_answer, has_all};

use shard_docs::Shard;
use shared_value::Shared;
use std::alloc::{AllocError, Global};
use std::marker::Model;
use std::mem::replace;
use task_events::{FetchAsk, Hit};
use task_ids::Items;

/// How many places a turn looks up, at most.
const PLACES_PER_TURN: usize = 1024;

/// What a turn of a fetch answers.
#[derive(Drop)]
pub enum FetchAnswer {
    /// Places are left to look up.
    More,
    /// The documents of all places that have a row alive at the version, in the order of the places.
    Ready(Items<Hit>),
}

/// The fetch phase of a search in one shard, after Elasticsearch's fetch phase: it copies the documents of some
/// places, turn by turn.
#[derive(Drop)]
pub struct ShardFetch {
    alloc: Global,
    ask: Shared<FetchAsk>,
    turns: usize,
    hits: Vec<Hit>,
}

impl Model for ShardFetch {
    ghost use Rattle.search_phase.specs.Fetches.{FetchState};
    ghost use Rattle.std.specs.Coded.{codes};
    ghost use Rattle.task_events.specs.contracts.request.FetchAsk as fetch_ask;
    ghost use Rattle.task_events.specs.contracts.reply.Hit as hit;

    ghost Value = { FetchState };

    ghost coded = { Prim.hlevel (codes, fetch_ask.the_row.coded, hit.the_row.coded) };

    ghost view = { λ f. record { ask = f.ask; turns = f.turns; hits = f.hits.items } };
}

/// Adds the document of a place, where it has a row alive at the version.
fn add_hit(hits: &mut Vec<Hit>, ask: &FetchAsk, shard: &Shard, place: u32) -> Result<(), AllocError>
    ensures { OnOk result (hits.new.items
        ≡ hits.old.items ++ filter_map (hit_at ask.now.index ask.now.version shard.now.writes) (place ∷ [])) }
{
    if let Some(doc) = shard.row(ask.version, place) {
        hits.push(Hit {
            index: ask.index.copy()?,
            doc: doc.copy()?,
            place,
        })?;
    }
    Ok(())
}

/// The documents of the places from one index on and below another.
fn hits_at(
    alloc: Global,
    ask: &FetchAsk,
    shard: &Shard,
    start: usize,
    end: usize,
) -> Result<Vec<Hit>, AllocError>
    requires ordered { start ≤ end }
    requires within { end ≤ length ask.now.places }
    ensures { IfOk result (λ hits. hits.items
        ≡ filter_map (hit_at ask.now.index ask.now.version shard.now.writes) (slice_range ask.now.places start end)) }
{
    let places = &ask.places.as_slice()[start..end];
    let mut hits = Vec::new(alloc);
    for &place in places {
        add_hit(&mut hits, ask, shard, place)?;
    }
    Ok(hits)
}

impl ShardFetch {
    /// No turn yet, which takes no memory.
    pub fn new(alloc: Global, ask: Shared<FetchAsk>) -> ShardFetch
        ensures new { result ≡ new_fetch ask }
        ensures fetched { (writes : List Doc) → IsFetched result writes }
    {
        ShardFetch {
            alloc,
            ask,
            turns: 0,
            hits: Vec::new(alloc),
        }
    }

    /// What is asked for. A world finds the shard by it.
    pub fn ask(&self) -> &FetchAsk
        ensures { result.now ≡ self.now.ask }
    {
        self.ask.get()
    }

    /// Looks up the next 1,024 places, or those that are left, and copies their documents. A place with no row alive at
    /// the version is passed over. It fails only for want of memory, and then nothing has changed.
    ///
    /// What it finds is what is asked for where all turns are over one shard, which may grow between them.
    pub fn turn(&mut self, shard: &Shard) -> Result<FetchAnswer, AllocError>
        requires { has_fetched self.old ≡ false }
        ensures turned { OnOk result (HasTurned self.old self.new) }
        ensures ready { IfOk result (λ answer. has_all answer ≡ has_fetched self.new) }
        ensures ok { IsFetched self.old shard.now.writes
            → OnOk result (self.new ≡ fetched_in self.old.ask (self.old.turns + 1) shard.now.writes) }
        ensures goes_on { IsFetched self.old shard.now.writes → OnOk result (IsFetched self.new shard.now.writes) }
        ensures stays { IsFetched self.old shard.now.writes → OnOk result (StaysFetched self.new shard.now.writes) }
        ensures answer { IsFetched self.old shard.now.writes
            → IfOk result (λ answer. answer ≡ fetch_answer self.new shard.now.writes) }
        ensures err { OnErr result (self.new ≡ self.old) }
    {
        let ask = self.ask.get();
        let all = ask.places.as_slice().len();
        let start = self.turns * PLACES_PER_TURN;
        let end = start + (all - start).min(PLACES_PER_TURN);
        let mut found = hits_at(self.alloc, ask, shard, start, end)?;
        self.hits.append(&mut found)?;
        self.turns += 1;
        if end < all {
            return Ok(FetchAnswer::More);
        }
        let hits = replace(&mut self.hits, Vec::new(self.alloc));
        Ok(FetchAnswer::Ready(Items::from_vec(hits)))
    }
}
