//! A search of all shards of an index, and a page of one.

ghost use Rattle.std.specs.Prelude.{◌≡◌, ◌<◌, ◌≤◌, ◌↔◌, ℕ, List, Option, IfOk, OnOk, OnErr, IsSomeAnd, Some, is_some, true, IsTrue, length, position, slice_get, slice_set, vec_capacity, option_copied};
ghost use Rattle.task_ids.specs.declared.doc.Doc.{Doc};
ghost use Rattle.task_ids.specs.declared.task_id.TaskId.{TaskId};
ghost use Rattle.task_ids.specs.Limits.{IsShardCount};
ghost use Rattle.task_events.specs.declared.context.Context.{Context};
ghost use Rattle.task_events.specs.declared.request.ScrollAsk.{ScrollAsk};
ghost use Rattle.task_events.specs.declared.request.SearchAsk.{SearchAsk};
ghost use Rattle.task_events.specs.declared.step.Asked.{Asked};
ghost use Rattle.task_events.specs.Kinds.{can_have};
ghost use Rattle.task_events.specs.Readings.{search_reading, page_reading};
ghost use Rattle.task_events.specs.Searches.{are_answered};
ghost use Rattle.search_phase.specs.Searching.{IsSearching, reading_for, new_search, next_request, next_step, is_open, wants_to_ask, has_ended, does_wait, is_above, with_ask, awaited, takes, with_answer, AllHonest, plain_reply, answer_of, reply_with};
ghost use Rattle.search_phase.specs.Plans.{plan_of};
ghost use Rattle.search_phase.specs.Awaiting.{LooksAlike};

use crate::answer::answer;
use crate::asking::{can_answer, has_request, request_at};
use crate::fetching::{Fetching, are_answered, fetching_in};
use crate::reading::Reading;
use crate::same::is_request_at;
use std::alloc::{AllocError, Global};
use std::marker::Model;
use task_events::{AnsweredRequest, Asked, Context, Reply, Request, SearchAsk, SearchReply};
use task_ids::TaskId;

/// What a search does next.
#[derive(Drop)]
pub enum RootPlan {
    /// It asks for a child.
    Ask(Request),
    /// It waits for an answer.
    Wait,
    /// It has all answers, and ends.
    Finish,
}

/// A search of all shards of an index in two phases, after Elasticsearch's search API: it asks for the query of each
/// shard, merges their keys, asks each shard with a winner for its documents, and puts the answer together. A page of one, after
/// Elasticsearch's scroll API, does so over the shards of a context, each at the version that it keeps and after its cursor.
///
/// A shard whose query or fetch was cancelled or rejected has failed, and the others' hits remain.
#[derive(Drop)]
pub struct SearchRoot {
    reading: Reading,
    /// The asks so far, with the answers that have come.
    asked: Vec<Asked>,
    fetching: Option<Fetching>,
}

impl Model for SearchRoot {
    ghost use Rattle.std.specs.Coded.{codes};
    ghost use Rattle.task_events.specs.contracts.request.HitKey as hit_key;
    ghost use Rattle.task_events.specs.contracts.request.SearchAsk as search_ask;
    ghost use Rattle.task_events.specs.contracts.reading.ShardRead as shard_read;
    ghost use Rattle.task_events.specs.contracts.step.Asked as asked_row;
    ghost use Rattle.task_ids.specs.contracts.task_id.TaskId as task_id;
    ghost use Rattle.search_phase.specs.Searching.{Searching};

    ghost Value = { Searching };

    ghost coded = { Prim.hlevel (codes, search_ask.the_row.coded, hit_key.the_row.coded, shard_read.the_row.coded, task_id.the_row.coded, asked_row.the_row.coded) };

    ghost use Rattle.std.specs.Prelude.{vec_capacity};
    ghost use Rattle.search_phase.specs.Roots.{IsRoot};

    ghost view = { λ r. record { reading = r.reading; asked = r.asked.items } };

    ghost invariant = { λ r. IsRoot (record { reading = r.reading; asked = r.asked.items }) r.fetching (vec_capacity r.asked) };
}

/// The place of the ask of this number, where it has no answer yet.
fn place_of(asked: &[Asked], ask: u32) -> Option<usize>
    ensures { result ≡ position (is_open ask) asked.now }
{
    asked
        .iter()
        .position(|a| a.ask == ask && a.answer.is_none())
}

fn set_answer(asked: &mut Vec<Asked>, place: usize, answer: Option<Reply>)
    requires { place < length asked.old.items }
    ensures items { (a : Asked) → slice_get asked.old.items place ≡ Some a
        → asked.new.items ≡ slice_set asked.old.items place (record { ask = a.ask; answer = answer }) }
    ensures room { vec_capacity asked.new ≡ vec_capacity asked.old }
{
    let asked = &mut asked[place];
    asked.answer = answer;
}

impl SearchRoot {
    /// A page of a context, where one is given, or else a search of an index with so many shards, which has asked for nothing
    /// yet, with room for all its asks. It copies what it looks through. It fails only for want of memory.
    pub fn new(
        alloc: Global,
        task: TaskId,
        ask: &SearchAsk,
        shards: u32,
        context: Option<&Context>,
    ) -> Result<SearchRoot, AllocError>
        ensures search { IfOk result (λ root. root ≡ new_search (reading_for task ask.now shards (option_copied context.entry))) }
        ensures sound { IfOk result IsSearching }
    {
        let reading = Reading::new(alloc, task, ask, shards, context)?;
        let shards = reading.shards().len();
        let asked = Vec::with_capacity(alloc, 2 * shards)?;
        let fetching = fetching_in(alloc, reading.ask(), shards, asked.as_slice())?;
        Ok(SearchRoot {
            reading,
            asked,
            fetching,
        })
    }

    /// The request that comes next, while there is one.
    fn next_request(&self) -> Result<Option<Request>, AllocError>
        ensures { IfOk result (λ request. request ≡ next_request self.now) }
    {
        let alloc = *self.asked.allocator();
        let place = self.asked.as_slice().len();
        request_at(alloc, &self.reading, &self.fetching, place)
    }

    fn has_all_answers(&self) -> bool
        ensures { result ≡ are_answered self.now.asked }
    {
        are_answered(self.asked.as_slice())
    }

    fn has_next(&self) -> bool
        ensures { result ≡ is_some (next_request self.now) }
    {
        let place = self.asked.as_slice().len();
        has_request(&self.reading, &self.fetching, place)
    }

    /// Whether it waits for an answer: it has asked for all that it can ask for, and not all answers have come. It takes
    /// no memory, so a world asks it where it only notes who waits.
    pub fn waits(&self) -> bool
        ensures { result ≡ does_wait (next_step self.now) }
    {
        !self.has_next() && !self.has_all_answers()
    }

    /// What it does next: it asks for the next request, waits for an answer, or ends. It fails only for want of memory.
    pub fn plan(&self) -> Result<RootPlan, AllocError>
        ensures { IfOk result (λ plan. plan ≡ plan_of (next_step self.now)) }
    {
        match self.next_request()? {
            Some(request) => Ok(RootPlan::Ask(request)),
            None if self.has_all_answers() => Ok(RootPlan::Finish),
            None => Ok(RootPlan::Wait),
        }
    }

    /// Notes that the request which it planned was asked for, under this number. It takes no memory.
    pub fn asked(&mut self, ask: u32)
        requires planned { wants_to_ask (next_step self.old) ≡ true }
        requires above { is_above ask self.old.asked ≡ true }
        ensures { self.new ≡ with_ask self.old ask }
    {
        let asked = Asked { ask, answer: None };
        match self.asked.push(asked) {
            Ok(()) => {}
            Err(_) => unreachable!(),
        }
    }

    /// Whether an ask of this number has no answer yet, and the reply is one that its request can have.
    pub fn takes(&self, ask: u32, reply: &Reply) -> bool
        ensures { result ≡ takes self.now ask reply.now }
    {
        match place_of(self.asked.as_slice(), ask) {
            Some(place) => can_answer(&self.reading, &self.fetching, place, reply),
            None => false,
        }
    }

    /// Whether a request looks as the one that the ask of this number awaits an answer to. It compares the shard, the version, the
    /// cursor and the places; that the request is over the search's own index, body and slice is the caller's to know. It takes no memory.
    pub fn asks_for(&self, ask: u32, request: &AnsweredRequest) -> bool
        ensures { IsTrue result ↔ IsSomeAnd (awaited self.now ask) (λ own. LooksAlike own request.now) }
    {
        match place_of(self.asked.as_slice(), ask) {
            Some(place) => is_request_at(&self.reading, &self.fetching, place, request),
            None => false,
        }
    }

    /// Takes the answer to an ask. Where memory runs out nothing has changed, and the reply is lost.
    pub fn feed(&mut self, ask: u32, reply: Reply) -> Result<(), AllocError>
        requires { takes self.old ask reply ≡ true }
        ensures ok { OnOk result (self.new ≡ with_answer self.old ask reply) }
        ensures err { OnErr result (self.new ≡ self.old) }
    {
        let Some(place) = place_of(self.asked.as_slice(), ask) else {
            unreachable!()
        };
        set_answer(&mut self.asked, place, Some(reply));
        if self.fetching.is_some() {
            return Ok(());
        }
        let alloc = *self.asked.allocator();
        let shards = self.reading.shards().len();
        match fetching_in(alloc, self.reading.ask(), shards, self.asked.as_slice()) {
            Ok(fetching) => {
                self.fetching = fetching;
                Ok(())
            }
            Err(e) => {
                set_answer(&mut self.asked, place, None);
                Err(e)
            }
        }
    }

    /// How many shards it looks through. `task_work` asks it, which makes the reply of the answer.
    pub fn shards(&self) -> usize
        ensures { result ≡ length self.now.reading.shards }
    {
        self.reading.shards().len()
    }

    /// What is looked for.
    pub fn ask(&self) -> &SearchAsk
        ensures { result.now ≡ self.now.reading.ask }
    {
        self.reading.ask()
    }

    /// The context that its answer names: that which it opens, or that of which it is a page.
    pub fn context(&self) -> Option<TaskId>
        ensures { result ≡ self.now.reading.context }
    {
        self.reading.context()
    }

    /// The answer, once all asks are answered; its failed shards may be all. Where every answer says what its shard's
    /// writes say, it is the plain answer: one list of all rows that match, in hit order, after the cursor and cut. It fails
    /// only for want of memory.
    pub fn finish(&self) -> Result<SearchReply, AllocError>
        requires { has_ended (next_step self.now) ≡ true }
        ensures answer { IfOk result (λ answer. answer ≡ answer_of self.now) }
        ensures plain { (writes : ℕ → List Doc) → AllHonest writes self.now
            → IfOk result (λ answer. reply_with (length self.now.reading.shards) answer ≡ plain_reply writes self.now) }
        ensures possible { (task : TaskId) (ask : SearchAsk) (shards : ℕ) → IsShardCount shards
            → self.now.reading ≡ search_reading task ask shards → IfOk result (λ answer.
            can_have shards (Request.Search ask) (reply_with (length self.now.reading.shards) answer) ≡ true) }
        ensures page_possible { (context : Context) (ask : ScrollAsk) (shards : ℕ) → ask.id ≡ context.id
            → length context.shards ≤ shards → shards ≤ 15 → context.ask.body.size ≤ 10000 → self.now.reading ≡ page_reading context → IfOk result (λ answer.
            can_have shards (Request.Scroll ask) (reply_with (length self.now.reading.shards) answer) ≡ true) }
    {
        let Some(fetching) = &self.fetching else {
            unreachable!()
        };
        let alloc = *self.asked.allocator();
        answer(alloc, &self.reading, self.asked.as_slice(), fetching)
    }
}
