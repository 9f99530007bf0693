//! The starts of commands' roots.
ghost use Rattle.data_parts.specs.Slices as slices;
ghost use Rattle.child_track.specs.Token.{Token};
ghost use Rattle.task_ids.specs.declared.task_id.TaskId.{TaskId};
ghost use Rattle.data_core.specs.Turns.{StartBecomes, Started, Registers, FindsNone, OnlyTasks};
ghost use Rattle.std.specs.Prelude.{◌≡◌, IfOk, IfErr, Err, None, Some, Ok, Option, option_copied};
ghost use Rattle.node_boards.specs.Calls as call;
ghost use Rattle.reply_facts.specs.Letters.{IsStartOf, context_of_start};
ghost use Rattle.data_core.specs.Admitting.{admission_of};
ghost use Rattle.data_core.specs.Cores.{IsSound, SameSelf};
ghost use Rattle.entry_facts.specs.Entries.{IsCoreOfRun};
ghost use Rattle.data_core.specs.Letters.{registered_id, root_rejected};
ghost use Rattle.node_link.specs.Lawful.{IsLawfulStart, IsPlace, IsCommand};
ghost use Rattle.run_facts.specs.Cancels.{cancels_of};
ghost use Rattle.task_ids.specs.Limits.{IsNode};

use crate::requests::Admission;
use crate::state::DataCore;
use data_parts::{context_of, one, or_memory};
use live_tasks::{Registered, Wanted};
use node_boards::DataBoard;
use node_link::{Body, Letter, Page, RootAnswered, Start};
use run_facts::{Of, Post, Run, To};
use task_events::{AnsweredRequest, Reply, Stop};
use task_ids::TaskId;

/// The letter that tells the driver that a root was rejected.
fn root_rejection<W: Run>(node: u32, start: Start) -> Result<Post<Letter<Of<W>>>, Stop>
    requires node { IsNode node }
    requires lawful { IsPlace start.place }
    requires tells { IsStartOf W.setting start }
    ensures post { IfOk result (λ post. post ≡ record { to = To.Driver; letter = Body.RootAnswer (root_rejected node start) }) }
    ensures memory { IfErr result (λ stop. stop ≡ Stop.Memory) }
{
    let Start {
        place,
        request,
        headers,
        page,
    } = start;
    drop(headers);
    drop(page);
    let answered = or_memory(AnsweredRequest::of(&request))?;
    drop(request);
    Ok(Post {
        to: To::Driver,
        letter: Letter::new(Body::RootAnswer(RootAnswered {
            place,
            request: answered,
            reply: Reply::Rejected { node },
            page: None,
        })),
    })
}

/// A command's root is passed over, rejected, or registered. One for which no slot was found comes to this worker again.
pub(crate) fn take_start<W: Run, B: DataBoard<Of<W>>>(
    core: &mut DataCore,
    board: &mut B,
    start: Start,
) -> Result<Vec<Post<Letter<Of<W>>>>, Stop>
    requires sound { IsSound (cancels_of W.cancels) (B.node board.old) (B.has board.old) (B.drawn board.old) (B.clear board.old) core.old }
    requires of_run { IsCoreOfRun W.setting core.old.cluster.shards core.old.shards core.old.live }
    requires lawful { IsLawfulStart (cancels_of W.cancels) start }
    requires tells { IsStartOf W.setting start }
    ensures sound { IsSound (cancels_of W.cancels) (B.node board.new) (B.has board.new) (B.drawn board.new) (B.clear board.new) core.new }
    ensures of_run { IsCoreOfRun W.setting core.new.cluster.shards core.new.shards core.new.live }
    ensures own { SameSelf core.old core.new }
    ensures spent { result ≡ Err Stop.NumbersSpent → (core.old.live.drawn ≡ None) × B.rests board.old board.new (call.draw None) }
    ensures history { result ≡ Err Stop.HistoryFull → ⊥ }
    ensures turned { IfOk result (λ posts. StartBecomes B.rests (admission_of core.old start.place start.request) start board.old core.old posts.items core.new board.new) }
{
    match core.admission(&start.place, &start.request) {
        Admission::PassedOver => Ok(Vec::new(core.alloc)),
        Admission::Rejected => one(core.alloc, root_rejection(core.node, start)?),
        Admission::Taken => register_root(core, board, start),
    }
}

/// The page in the letter that starts a task.
pub(crate) fn page_in(start: &Start) -> Option<&Page>
    ensures { option_copied result ≡ start.now.page }
{
    match &start.page {
        Some(page) => Some(page.get()),
        None => None,
    }
}

/// Registers a root. A scroll's works over the page in its letter.
fn start_root<W: Run, B: DataBoard<Of<W>>>(
    core: &mut DataCore,
    board: &mut B,
    start: &Start,
) -> Result<Registered, Stop>
    requires sound { IsSound (cancels_of W.cancels) (B.node board.old) (B.has board.old) (B.drawn board.old) (B.clear board.old) core.old }
    requires of_run { IsCoreOfRun W.setting core.old.cluster.shards core.old.shards core.old.live }
    requires lawful { IsLawfulStart (cancels_of W.cancels) start.now }
    requires tells { IsStartOf W.setting start.now }
    requires admitted { admission_of core.old start.now.place start.now.request ≡ Admission.Taken }
    ensures sound { IsSound (cancels_of W.cancels) (B.node board.new) (B.has board.new) (B.drawn board.new) (B.clear board.new) core.new }
    ensures of_run { IsCoreOfRun W.setting core.new.cluster.shards core.new.shards core.new.live }
    ensures own { SameSelf core.old core.new }
    ensures spent { result ≡ Err Stop.NumbersSpent → (core.old.live.drawn ≡ None) × B.rests board.old board.new (call.draw None) }
    ensures history { result ≡ Err Stop.HistoryFull → ⊥ }
    ensures rest { OnlyTasks core.old core.new }
    ensures registers { (id : TaskId) → result ≡ Ok (Registered.Task id)
        → Registers B.rests None start.now.place start.now.request start.now.headers start.now.page (context_of_start start.now.request start.now.page) id board.old core.old core.new.live board.new }
    ensures full { (t : Option Token) → result ≡ Ok (Registered.Full t) → FindsNone B.rests None board.old core.old core.new.live board.new }
{
    let held = context_of(start)?;
    let page = page_in(start);
    let context = held.as_ref();
    let wanted = Wanted {
        place: start.place,
        request: &start.request,
        headers: &start.headers,
        page,
        context,
    };
    let now = core.clock.now();
    let outcome = core.live.register(board, None, &wanted, &core.cluster, now);
    let Wanted {
        place: _,
        request: _,
        headers: _,
        page: _,
        context: _,
    } = wanted;
    outcome
}

/// The task that was registered without a token, or none where no slot was found.
fn registered(what: Registered) -> Option<TaskId>
    ensures { result ≡ registered_id what }
{
    match what {
        Registered::Task(task) => Some(task),
        Registered::Full(token) => {
            if let Some(token) = token {
                let _ = token.reject();
            }
            None
        }
    }
}

/// The root is registered, and the driver is told its id.
fn register_root<W: Run, B: DataBoard<Of<W>>>(
    core: &mut DataCore,
    board: &mut B,
    start: Start,
) -> Result<Vec<Post<Letter<Of<W>>>>, Stop>
    requires sound { IsSound (cancels_of W.cancels) (B.node board.old) (B.has board.old) (B.drawn board.old) (B.clear board.old) core.old }
    requires of_run { IsCoreOfRun W.setting core.old.cluster.shards core.old.shards core.old.live }
    requires lawful { IsLawfulStart (cancels_of W.cancels) start }
    requires tells { IsStartOf W.setting start }
    requires admitted { admission_of core.old start.place start.request ≡ Admission.Taken }
    ensures sound { IsSound (cancels_of W.cancels) (B.node board.new) (B.has board.new) (B.drawn board.new) (B.clear board.new) core.new }
    ensures of_run { IsCoreOfRun W.setting core.new.cluster.shards core.new.shards core.new.live }
    ensures own { SameSelf core.old core.new }
    ensures spent { result ≡ Err Stop.NumbersSpent → (core.old.live.drawn ≡ None) × B.rests board.old board.new (call.draw None) }
    ensures history { result ≡ Err Stop.HistoryFull → ⊥ }
    ensures turned { IfOk result (λ posts. Started B.rests start board.old core.old posts.items core.new board.new) }
{
    let command = start.place.command;
    match registered(start_root(core, board, &start)?) {
        Some(task) => one(core.alloc, root_post(command, task)),
        None => one(core.alloc, start_again(core.node, core.worker, start)),
    }
}

/// The letter that tells the driver which task a command's root is.
fn root_post<W: Run>(command: u32, task: TaskId) -> Post<Letter<Of<W>>>
    requires command { IsCommand command }
    ensures { result ≡ record { to = To.Driver; letter = Body.Root command task } }
{
    Post {
        to: To::Driver,
        letter: Letter::new(Body::Root { command, task }),
    }
}

/// The start of a root, which comes to this worker again.
fn start_again<W: Run>(node: u32, worker: u32, start: Start) -> Post<Letter<Of<W>>>
    requires lawful { IsLawfulStart (cancels_of W.cancels) start }
    requires tells { IsStartOf W.setting start }
    ensures { result ≡ record { to = To.Data node worker; letter = Body.Start start } }
{
    Post {
        to: To::Data { node, worker },
        letter: Letter::new(Body::Start(start)),
    }
}
