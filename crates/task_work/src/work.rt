ghost use Rattle.std.specs.Prelude.{◌≡◌, ℕ, ◌<◌, ◌^◌, ◌+◌, ◌++◌, ◌↔◌, List, length, IfOk, OnOk, OnErr, IsTrue, true, is_some, option_map, option_copied};
ghost use Rattle.task_ids.specs.declared.doc.Doc.{Doc};
ghost use Rattle.task_ids.specs.declared.task_id.TaskId.{TaskId};
ghost use Rattle.task_events.specs.declared.request.Request.{Request};
ghost use Rattle.task_events.specs.Kind.{Progress};
ghost use Rattle.task_events.specs.Kinds.{kind_of};
ghost use Rattle.task_work.specs.Awaiting.{IsAskedBy, IsSoundSearch};
ghost use Rattle.task_work.specs.Plans.{IsWorkAt, no_progress, progress_with_ask, progress_with_answer, progress_with_turn, AsPlanned};
ghost use Rattle.task_work.specs.Works.{is_page, IsNewWork, IsBegun, IsWorkOn, HasTurned, BrokeOff, next_of, with_turn, can_ask, work_with_ask, work_takes, work_with_answer, EndsPlainly, does_wait, due_in, place_of, docs_next, work_notes, counts_of};

use crate::bulk_shard::{new_part, turn_of_part};
use crate::fetch::{hits_reply, turn_of_fetch};
use crate::query::{top_reply, turn_of_query};
use crate::scroll::new_page;
use crate::search::next_of_search;
use reindex::{Bulk, BulkShardWork, ReindexRoot, Slice};
use search_phase::{Context, SearchRoot, ShardFetch, ShardQuery};
use shard_docs::Shard;
use shared_value::Shared;
use std::alloc::{AllocError, Global};
use task_events::{AnsweredRequest, Counts, Do, Hit, Reply, Request, ShardTop, Tally, WriteNote};
use task_ids::{Cluster, Items, TaskId, Text};

/// The work of a task.
#[derive(Drop)]
pub enum Work {
    /// A search of all shards of an index, which asks for the other two.
    Search(SearchRoot),
    /// The query phase in one shard, and what it found, once it has looked at all rows.
    Query(ShardQuery, Option<ShardTop>),
    /// The fetch phase in one shard, and what it found, once it has looked up all places.
    Fetch(ShardFetch, Option<Items<Hit>>),
    /// A page of a search, which asks for queries and fetches as the search does.
    Scroll(SearchRoot),
    /// A reindex, which does the work of its one slice itself or asks for its slices.
    Reindex(ReindexRoot),
    /// A slice of a reindex, which asks for pages and bulks by turns.
    Slice(Slice),
    /// A bulk, which asks for its part in each shard.
    Bulk(Bulk),
    /// The part of a bulk in one shard, which writes there.
    BulkShard(BulkShardWork),
}

impl Work {
    /// The work of a new task; that of a page is over the context that is given. It copies what is asked for, or shares it. It fails
    /// only for want of memory.
    pub fn new(
        alloc: Global,
        task: TaskId,
        request: &Request,
        cluster: &Cluster,
        context: Option<&Context>,
    ) -> Result<Work, AllocError>
        requires given { is_some context ≡ is_page request.now }
        ensures work { IfOk result (λ work.
            IsNewWork task request.now cluster.now.shards (option_copied context.entry) work) }
        ensures begun { (writes : List Doc) → IfOk result (λ work. IsWorkOn work writes) }
        ensures tied { IfOk result (λ work. IsBegun task request.now cluster.now.shards work) }
        ensures at { (writes : List Doc) → IfOk result (λ work.
            IsWorkAt task request.now cluster.now.shards (no_progress (option_copied context.entry)) writes work) }
        ensures sound { IfOk result IsSoundSearch }
    {
        match request {
            Request::Search(ask) => {
                let root = SearchRoot::new(alloc, task, ask.get(), cluster.shards, None)?;
                Ok(Work::Search(root))
            }
            Request::Query(ask) => {
                let query = ShardQuery::new(alloc, ask.copy()?);
                Ok(Work::Query(query, None))
            }
            Request::Fetch(ask) => {
                let fetch = ShardFetch::new(alloc, ask.copy()?);
                Ok(Work::Fetch(fetch, None))
            }
            Request::Scroll(_) => {
                let Some(context) = context else {
                    unreachable!()
                };
                let root = new_page(alloc, task, cluster.shards, context)?;
                Ok(Work::Scroll(root))
            }
            Request::Reindex(ask) => {
                let root = ReindexRoot::new(alloc, task, ask.get(), cluster.shards)?;
                Ok(Work::Reindex(root))
            }
            Request::Slice(ask) => {
                let slice = Slice::new(alloc, task, ask.get(), cluster.shards)?;
                Ok(Work::Slice(slice))
            }
            Request::Bulk(ask) => Ok(Work::Bulk(Bulk::new(alloc, ask.get(), cluster.shards)?)),
            Request::BulkShard(ask) => Ok(Work::BulkShard(new_part(alloc, ask.get())?)),
        }
    }

    /// The index and the shard, from 0, of which it looks at the documents, or to which it writes, where it works on one.
    pub fn place(&self) -> Option<(&Shared<Text>, u32)>
        ensures { option_map (λ place. (place.0.now, place.1)) result ≡ place_of self.now }
    {
        match self {
            Work::Search(_) | Work::Scroll(_) | Work::Reindex(_) | Work::Slice(_) | Work::Bulk(_) =>
                None,
            Work::BulkShard(part) => Some((part.index(), part.shard())),
            Work::Query(query, _) => {
                let ask = query.ask();
                Some((&ask.index, ask.shard))
            }
            Work::Fetch(fetch, _) => {
                let ask = fetch.ask();
                Some((&ask.index, ask.shard))
            }
        }
    }

    /// What it does next, at this moment in milliseconds: it asks for a child, takes a turn, waits, or ends with its
    /// reply. It fails only for want of memory.
    pub fn next(&self, now: u64) -> Result<Do, AllocError>
        ensures step { (writes : List Doc) → IsWorkOn self.now writes
            → IfOk result (λ step. step ≡ next_of self.now writes now) }
        ensures plain { IfOk result (λ step. EndsPlainly self.now step) }
        ensures planned { AsPlanned self.now now (λ plan. IfOk result (λ step. step ≡ plan)) }
    {
        match self {
            Work::Search(root) | Work::Scroll(root) => next_of_search(root),
            Work::Query(_, Some(top)) => Ok(Do::Finish(top_reply(top)?)),
            Work::Fetch(_, Some(hits)) => Ok(Do::Finish(hits_reply(hits)?)),
            Work::Query(_, None) | Work::Fetch(_, None) => Ok(Do::Turn),
            Work::Reindex(root) => root.next(now),
            Work::Slice(slice) => slice.next(now),
            Work::Bulk(bulk) => bulk.next(),
            Work::BulkShard(part) => part.next(),
        }
    }

    /// Whether it waits at this moment in milliseconds, for an answer or for a later moment. It takes no memory, so a world asks
    /// it where it only notes who waits.
    pub fn waits(&self, now: u64) -> bool
        ensures step { (writes : List Doc) → result ≡ does_wait (next_of self.now writes now) }
        ensures planned { AsPlanned self.now now (λ plan. result ≡ does_wait plan) }
    {
        match self {
            Work::Search(root) | Work::Scroll(root) => root.waits(),
            Work::Reindex(root) => root.waits(now),
            Work::Slice(slice) => slice.waits(now),
            Work::Bulk(bulk) => bulk.waits(),
            Work::Query(_, _) | Work::Fetch(_, _) | Work::BulkShard(_) => false,
        }
    }

    /// The moment for which it waits, where it waits for one, both in milliseconds. It takes no memory.
    pub fn due(&self, now: u64) -> Option<u64>
        ensures step { (writes : List Doc) → result ≡ due_in (next_of self.now writes now) }
        ensures planned { AsPlanned self.now now (λ plan. result ≡ due_in plan) }
    {
        match self {
            Work::Reindex(root) => root.due(now),
            Work::Slice(slice) => slice.due(now),
            Work::Search(_) | Work::Query(_, _) | Work::Fetch(_, _) | Work::Scroll(_) => None,
            Work::Bulk(_) | Work::BulkShard(_) => None,
        }
    }

    /// Notes that the child which comes next was asked for, under this number and at this moment in milliseconds. It
    /// takes no memory.
    pub fn asked(&mut self, ask: u32, now: u64)
        requires { can_ask self.old ask ≡ true }
        ensures asked { self.new ≡ work_with_ask self.old ask }
        ensures at { (task : TaskId) (request : Request) (shards : ℕ) (p : Progress) (writes : List Doc)
            → ask ≡ length p.asked + 1 → IsWorkAt task request shards p writes self.old
            → IsWorkAt task request shards (progress_with_ask p ask) writes self.new }
    {
        match self {
            Work::Search(root) => root.asked(ask),
            Work::Scroll(root) => root.asked(ask),
            Work::Reindex(root) => root.asked(ask, now),
            Work::Slice(slice) => slice.asked(ask, now),
            Work::Bulk(bulk) => bulk.asked(ask),
            Work::Query(_, _) | Work::Fetch(_, _) | Work::BulkShard(_) => unreachable!(),
        }
    }

    /// Whether an ask of this number has no answer yet, and the reply is one that its request can have.
    pub fn takes(&self, ask: u32, reply: &Reply) -> bool
        ensures { result ≡ work_takes self.now ask reply.now }
    {
        match self {
            Work::Search(root) | Work::Scroll(root) => root.takes(ask, reply),
            Work::Reindex(root) => root.takes(ask, reply),
            Work::Slice(slice) => slice.takes(ask, reply),
            Work::Bulk(bulk) => bulk.takes(ask, reply),
            Work::Query(_, _) | Work::Fetch(_, _) | Work::BulkShard(_) => false,
        }
    }

    /// Whether a request looks as the one that the ask of this number awaits an answer to. A search and a page compare the shard,
    /// the version, the cursor and the places of a query or a fetch; other work takes any. It takes no memory.
    pub fn asks_for(&self, ask: u32, request: &AnsweredRequest) -> bool
        ensures { IsTrue result ↔ IsAskedBy self.now ask request.now }
    {
        match self {
            Work::Search(root) | Work::Scroll(root) => root.asks_for(ask, request),
            Work::Query(_, _) | Work::Fetch(_, _) => true,
            Work::Reindex(_) | Work::Slice(_) | Work::Bulk(_) | Work::BulkShard(_) => true,
        }
    }

    /// Takes the answer to an ask, at this moment in milliseconds. Where memory runs out nothing has changed, and the
    /// reply is lost.
    pub fn feed(&mut self, ask: u32, reply: Reply, now: u64) -> Result<(), AllocError>
        requires takes { work_takes self.old ask reply ≡ true }
        requires moment { now < 2 ^ 60 }
        ensures ok { OnOk result (self.new ≡ work_with_answer self.old ask reply now) }
        ensures at { (task : TaskId) (request : Request) (shards : ℕ) (p : Progress) (writes : List Doc)
            → IsWorkAt task request shards p writes self.old
            → OnOk result (IsWorkAt task request shards (progress_with_answer p ask reply now) writes self.new) }
        ensures err { OnErr result (self.new ≡ self.old) }
    {
        match self {
            Work::Search(root) => root.feed(ask, reply),
            Work::Scroll(root) => root.feed(ask, reply),
            Work::Reindex(root) => root.feed(ask, reply, now),
            Work::Slice(slice) => slice.feed(ask, reply, now),
            Work::Bulk(bulk) => {
                bulk.feed(ask, &reply);
                Ok(())
            }
            Work::Query(_, _) | Work::Fetch(_, _) | Work::BulkShard(_) => unreachable!(),
        }
    }

    /// Takes a turn over its shard, and gives the notes of what it has written there. It fails only for want of memory. Then a
    /// first part of its documents may have been written, and what writes is used no more.
    ///
    /// What it finds is what is asked for where all turns are over one shard, which may grow between them.
    pub fn turn(&mut self, shard: &mut Shard) -> Result<Vec<WriteNote>, AllocError>
        requires { (now : ℕ) × (next_of self.old shard.old.writes now ≡ Do.Turn) }
        ensures notes { IfOk result (λ notes. notes.items ≡ work_notes self.old shard.old.writes) }
        ensures written { OnOk result (shard.new.writes ≡ shard.old.writes ++ docs_next self.old) }
        ensures oldest { shard.new.oldest ≡ shard.old.oldest }
        ensures turned { OnOk result (HasTurned self.old shard.old.writes self.new) }
        ensures ok { IsWorkOn self.old shard.old.writes → OnOk result (self.new ≡ with_turn self.old shard.old.writes) }
        ensures holds_on { IsWorkOn self.old shard.old.writes → OnOk result (IsWorkOn self.new shard.new.writes) }
        ensures at { (task : TaskId) (request : Request) (shards : ℕ) (p : Progress)
            → IsWorkAt task request shards p shard.old.writes self.old
            → OnOk result (IsWorkAt task request shards (progress_with_turn p shard.old.writes (work_notes self.old shard.old.writes)) shard.new.writes self.new) }
        ensures err { OnErr result (BrokeOff self.old self.new shard.old.writes shard.new.writes) }
    {
        match self {
            Work::Search(_) | Work::Scroll(_) | Work::Reindex(_) | Work::Slice(_) | Work::Bulk(_) =>
                unreachable!(),
            Work::BulkShard(part) => turn_of_part(part, shard),
            Work::Query(query, top) => {
                turn_of_query(query, top, shard)?;
                Ok(Vec::new(query.ask().body.get().sort.allocator()))
            }
            Work::Fetch(fetch, hits) => {
                turn_of_fetch(fetch, hits, shard)?;
                Ok(Vec::new(fetch.ask().places.allocator()))
            }
        }
    }

    /// What it has counted so far. It takes no memory.
    fn counts(&self) -> Counts
        ensures { result ≡ counts_of self.now }
    {
        match self {
            Work::Reindex(root) => root.counts(),
            Work::Slice(slice) => slice.counts(),
            Work::Bulk(bulk) => bulk.counts(),
            Work::BulkShard(part) => part.counts(),
            Work::Search(_) | Work::Query(_, _) | Work::Fetch(_, _) | Work::Scroll(_) => Counts {
                total: 0,
                created: 0,
                updated: 0,
                batches: 0,
                failures: 0,
            },
        }
    }

    /// The reply of a task that ends since it was cancelled, by the cancellation of this number, with what it has counted. It
    /// fails only for want of memory, and takes none where nothing was counted.
    pub fn cancelled(&self, alloc: Global, task: TaskId, cancel: u32) -> Result<Reply, AllocError>
        ensures reply { IfOk result (λ reply. reply ≡ Reply.Cancelled task cancel (counts_of self.now)) }
        ensures counted { (request : Request) (shards : ℕ) (p : Progress) (writes : List Doc)
            → IsWorkAt task request shards p writes self.now
            → IfOk result (λ reply. reply ≡ Reply.Cancelled task cancel ((kind_of request).counts p)) }
    {
        let counts = Tally::of(alloc, self.counts())?;
        Ok(Reply::Cancelled {
            task,
            cancel,
            counts,
        })
    }
}
