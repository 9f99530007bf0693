//! The requests of tasks for children.
ghost use Rattle.data_parts.specs.Slices as slices;
ghost use Rattle.task_ids.specs.declared.task_id.TaskId.{TaskId};
ghost use Rattle.data_core.specs.Turns.{RequestBecomes, Requested, Registers, FindsNone, OnlyTasks};
ghost use Rattle.std.specs.Prelude.{◌≡◌, IfOk, IfErr, Ok, Err, None, Some, true, option_map, option_copied, Option};
ghost use Rattle.node_boards.specs.Calls as call;
ghost use Rattle.child_track.specs.Token.{Token};
ghost use Rattle.data_core.specs.Admitting.{admission_of, child_admission_of, has_shard, has_version, may_use};
ghost use Rattle.data_core.specs.Cores.{IsSound, SameSelf};
ghost use Rattle.entry_facts.specs.Entries.{IsCoreOfRun};
ghost use Rattle.data_core.specs.Letters.{page_at, rejected};
ghost use Rattle.node_link.specs.Lawful.{IsLawfulAsk, IsPlace, is_page};
ghost use Rattle.reply_facts.specs.Letters.{IsAskOf, IsRequestAt};
ghost use Rattle.reply_facts.specs.Settings.{sought_at};
ghost use Rattle.task_events.specs.Answered.{as_answered};
ghost use Rattle.run_facts.specs.Cancels.{cancels_of};
ghost use Rattle.task_ids.specs.Limits.{IsNode};

use crate::endings::asker_at;
use crate::starts::page_in;
use crate::state::DataCore;
use child_track::AskToken;
use data_parts::{context_for, one, or_memory, use_context};
use live_tasks::{Registered, Wanted};
use node_boards::DataBoard;
use node_link::{Answered, Asked, Body, Letter, Page, Place, SentToken, Start};
use run_facts::{Of, Post, Run, To};
use std::alloc::Global;
use task_events::{AnsweredRequest, Context, Reply, Request, Stop};
use task_ids::Boxed;

/// What becomes of a letter that asks for a task, before the board is asked.
#[derive(Clone, Copy, Debug, PartialEq, Eq)]
pub(crate) enum Admission {
    /// It is passed over.
    PassedOver,
    /// It is rejected, since as many tasks are live here as may be.
    Rejected,
    /// A slot is looked for.
    Taken,
}

impl DataCore {
    /// Whether the core has what a request is worked on: the shard, where it is one of a shard, at the version that it reads.
    fn has_shard(&self, request: &Request) -> bool
        ensures { result ≡ has_shard self.now.shards request.now }
    {
        match request {
            Request::Query(ask) => {
                let ask = ask.get();
                self.shards.holds(ask.shard)
                    && self.has_version(ask.index.get().as_str(), ask.shard, ask.version)
            }
            Request::Fetch(ask) => {
                let ask = ask.get();
                self.shards.holds(ask.shard)
                    && self.has_version(ask.index.get().as_str(), ask.shard, Some(ask.version))
            }
            Request::BulkShard(ask) => self.shards.holds(ask.get().shard),
            _ => true,
        }
    }

    /// Whether a shard of an index has a version, where one is given.
    fn has_version(&self, index: &str, shard: u32, version: Option<u32>) -> bool
        ensures { result ≡ has_version self.now.shards index.now shard version }
    {
        match version {
            Some(version) => version <= self.shards.version(index, shard),
            None => true,
        }
    }

    /// What becomes of a letter that asks for a task at this place.
    pub(crate) fn admission(&self, place: &Place, request: &Request) -> Admission
        ensures { result ≡ admission_of self.now place.now request.now }
    {
        if self.live.has_place(place) || !self.has_shard(request) {
            Admission::PassedOver
        } else if self.live.is_full() {
            Admission::Rejected
        } else {
            Admission::Taken
        }
    }

    /// Whether a request that asks for a page may use its context now, which is one of this core.
    fn may_use(&self, request: &Request) -> bool
        ensures { result ≡ may_use self.now.contexts request.now self.now.clock.ms }
    {
        match request {
            Request::Scroll(_) => {
                context_for(&self.contexts, request, self.clock.now()).is_some()
            }
            _ => true,
        }
    }

    /// What becomes of the request for a child.
    fn child_admission(&self, asked: &Asked) -> Admission
        ensures { result ≡ child_admission_of self.now asked.now }
    {
        if asked.to != self.node {
            return Admission::PassedOver;
        }
        if !self.may_use(&asked.request) {
            return Admission::PassedOver;
        }
        self.admission(&asked.place, &asked.request)
    }
}

/// The letter that tells the parent that the request was rejected.
fn rejection<W: Run>(node: u32, asked: Asked) -> Result<Post<Letter<Of<W>>>, Stop>
    requires node { IsNode node }
    requires lawful { IsPlace asked.place }
    requires tells { IsAskOf W.setting asked }
    ensures post { IfOk result (λ post. post ≡ record { to = To.Data asked.token.parent.node 0; letter = Body.Answer (rejected node asked) }) }
    ensures memory { IfErr result (λ stop. stop ≡ Stop.Memory) }
{
    let Asked {
        to: _,
        place,
        token,
        request,
        headers,
    } = asked;
    drop(headers);
    let answered = or_memory(AnsweredRequest::of(&request))?;
    drop(request);
    let token = token.into_token();
    let parent = token.parent();
    Ok(Post {
        to: asker_at(parent.node),
        letter: Letter::new(Body::Answer(Answered {
            place,
            receipt: token.reject(),
            request: answered,
            reply: Reply::Rejected { node },
            page: None,
        })),
    })
}

/// A request for a child is passed over, rejected, or registered. One for which no slot was found comes to this worker again.
pub(crate) fn take_request<W: Run, B: DataBoard<Of<W>>>(
    core: &mut DataCore,
    board: &mut B,
    asked: Asked,
) -> Result<Vec<Post<Letter<Of<W>>>>, Stop>
    requires sound { IsSound (cancels_of W.cancels) (B.node board.old) (B.has board.old) (B.drawn board.old) (B.clear board.old) core.old }
    requires of_run { IsCoreOfRun W.setting core.old.cluster.shards core.old.shards core.old.live }
    requires lawful { IsLawfulAsk (cancels_of W.cancels) asked }
    requires tells { IsAskOf W.setting asked }
    ensures sound { IsSound (cancels_of W.cancels) (B.node board.new) (B.has board.new) (B.drawn board.new) (B.clear board.new) core.new }
    ensures of_run { IsCoreOfRun W.setting core.new.cluster.shards core.new.shards core.new.live }
    ensures own { SameSelf core.old core.new }
    ensures spent { result ≡ Err Stop.NumbersSpent → (core.old.live.drawn ≡ None) × B.rests board.old board.new (call.draw None) }
    ensures history { result ≡ Err Stop.HistoryFull → ⊥ }
    ensures turned { IfOk result (λ posts. RequestBecomes B.rests (child_admission_of core.old asked) asked board.old core.old posts.items core.new board.new) }
{
    match core.child_admission(&asked) {
        Admission::PassedOver => Ok(Vec::new(core.alloc)),
        Admission::Rejected => one(core.alloc, rejection(core.node, asked)?),
        Admission::Taken => register_child(core, board, asked),
    }
}

/// Registers a child, whose page, if it asks for one, begins where its context stands.
fn start_child<W: Run, B: DataBoard<Of<W>>>(
    core: &mut DataCore,
    board: &mut B,
    token: SentToken,
    start: &Start,
) -> Result<Registered, Stop>
    requires sound { IsSound (cancels_of W.cancels) (B.node board.old) (B.has board.old) (B.drawn board.old) (B.clear board.old) core.old }
    requires of_run { IsCoreOfRun W.setting core.old.cluster.shards core.old.shards core.old.live }
    requires place { IsPlace start.now.place }
    requires asked { IsRequestAt W.setting start.now.place (as_answered start.now.request) }
    requires pages { is_page (as_answered start.now.request) ≡ true → sought_at W.setting start.now.place ≡ None }
    requires admitted { admission_of core.old start.now.place start.now.request ≡ Admission.Taken }
    requires may { may_use core.old.contexts start.now.request core.old.clock.ms ≡ true }
    requires page { start.now.page ≡ option_map page_at (slices.context_for core.old.contexts start.now.request core.old.clock.ms) }
    ensures sound { IsSound (cancels_of W.cancels) (B.node board.new) (B.has board.new) (B.drawn board.new) (B.clear board.new) core.new }
    ensures of_run { IsCoreOfRun W.setting core.new.cluster.shards core.new.shards core.new.live }
    ensures own { SameSelf core.old core.new }
    ensures spent { result ≡ Err Stop.NumbersSpent → (core.old.live.drawn ≡ None) × B.rests board.old board.new (call.draw None) }
    ensures history { result ≡ Err Stop.HistoryFull → ⊥ }
    ensures rest { OnlyTasks core.old core.new }
    ensures registers { (id : TaskId) → result ≡ Ok (Registered.Task id) → let context = slices.context_for core.old.contexts start.now.request core.old.clock.ms in
        Registers B.rests (Some token) start.now.place start.now.request start.now.headers (option_map page_at context) context id board.old core.old core.new.live board.new }
    ensures full { (t : Option Token) → result ≡ Ok (Registered.Full t) → (t ≡ Some token) × FindsNone B.rests (Some token.parent) board.old core.old core.new.live board.new }
{
    let now = core.clock.now();
    let context = context_for(&core.contexts, &start.request, now);
    let page = page_in(start);
    let wanted = Wanted {
        place: start.place,
        request: &start.request,
        headers: &start.headers,
        page,
        context,
    };
    let token = Some(token.into_token());
    let outcome = core
        .live
        .register(board, token, &wanted, &core.cluster, now);
    let Wanted {
        place: _,
        request: _,
        headers: _,
        page: _,
        context: _,
    } = wanted;
    outcome
}

/// The page that begins where a context stands, where there is one. It fails only for want of memory (`Memory`).
fn page_of(alloc: Global, context: Option<&Context>) -> Result<Option<Boxed<Page>>, Stop>
    ensures page { IfOk result (λ page. page ≡ option_map page_at (option_copied context.entry)) }
    ensures memory { IfErr result (λ stop. stop ≡ Stop.Memory) }
{
    let Some(context) = context else {
        return Ok(None);
    };
    let page = or_memory(Page::of(context))?;
    match Boxed::new(alloc, page) {
        Ok(boxed) => Ok(Some(boxed)),
        Err(_) => Err(Stop::Memory),
    }
}

/// The child is registered. A slice's page takes its context with it.
fn register_child<W: Run, B: DataBoard<Of<W>>>(
    core: &mut DataCore,
    board: &mut B,
    asked: Asked,
) -> Result<Vec<Post<Letter<Of<W>>>>, Stop>
    requires sound { IsSound (cancels_of W.cancels) (B.node board.old) (B.has board.old) (B.drawn board.old) (B.clear board.old) core.old }
    requires of_run { IsCoreOfRun W.setting core.old.cluster.shards core.old.shards core.old.live }
    requires lawful { IsLawfulAsk (cancels_of W.cancels) asked }
    requires tells { IsAskOf W.setting asked }
    requires admitted { child_admission_of core.old asked ≡ Admission.Taken }
    ensures sound { IsSound (cancels_of W.cancels) (B.node board.new) (B.has board.new) (B.drawn board.new) (B.clear board.new) core.new }
    ensures of_run { IsCoreOfRun W.setting core.new.cluster.shards core.new.shards core.new.live }
    ensures own { SameSelf core.old core.new }
    ensures spent { result ≡ Err Stop.NumbersSpent → (core.old.live.drawn ≡ None) × B.rests board.old board.new (call.draw None) }
    ensures history { result ≡ Err Stop.HistoryFull → ⊥ }
    ensures turned { IfOk result (λ posts. Requested B.rests asked board.old core.old posts.items core.new board.new) }
{
    let Asked {
        to,
        place,
        token,
        request,
        headers,
    } = asked;
    let now = core.clock.now();
    let page = page_of(core.alloc, context_for(&core.contexts, &request, now))?;
    let start = Start {
        place,
        request,
        headers,
        page,
    };
    match start_child(core, board, token, &start)? {
        Registered::Task(task) => {
            use_context(&mut core.contexts, task, &start.request, now);
            Ok(Vec::new(core.alloc))
        }
        Registered::Full(Some(token)) => one(core.alloc, again(to, core.worker, token, start)),
        Registered::Full(None) => unreachable!(),
    }
}

/// The request for a child, which comes to this worker again.
fn again<W: Run>(to: u32, worker: u32, token: AskToken, start: Start) -> Post<Letter<Of<W>>>
    requires to { IsNode to }
    requires place { IsPlace start.place }
    requires asked { IsRequestAt W.setting start.place (as_answered start.request) }
    requires pages { is_page (as_answered start.request) ≡ true → sought_at W.setting start.place ≡ None }
    ensures { result ≡ record { to = To.Data to worker; letter = Body.Request (record { to = to; place = start.place; token = token; request = start.request; headers = start.headers }) } }
{
    let Start {
        place,
        request,
        headers,
        page,
    } = start;
    drop(page);
    Post {
        to: To::Data { node: to, worker },
        letter: Letter::new(Body::Request(Asked {
            to,
            place,
            token: SentToken::new(token),
            request,
            headers,
        })),
    }
}
