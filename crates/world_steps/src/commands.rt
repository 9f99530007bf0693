//! What commands do, and the closing drain.

ghost use Rattle.std.specs.Prelude.{◌≡◌, ◌⊎◌, ◌∷◌, ◌+◌, ◌*◌, ◌≤◌, length, true, false, is_some, Some, option_map, option_and_then, OnOk, OnErr, IfErr};
ghost use Rattle.std.specs.Result.{result_ok};
ghost use Rattle.query_parse.specs.Bodies.{body_at};
ghost use Rattle.query_parse.specs.Reindexes.{reindex_at};
ghost use Rattle.task_events.specs.Cancels.{last_command, beginning};
ghost use Rattle.task_events.specs.Clock.{clock};
ghost use Rattle.script_lang.specs.Fits.{IsSliceCount, IsRate};
ghost use Rattle.script_lang.specs.KeepAlives.{day_ms};
ghost use Rattle.task_events.specs.Laws.{IsDrained};
ghost use Rattle.command_roots.specs.Reindexes.{reindex_ask};
ghost use Rattle.command_roots.specs.Roots.{body_or_none, command_at, least_size, root_request, search_ask};
ghost use Rattle.task_ids.specs.Limits.{IsCancel};
ghost use Rattle.world_moves.specs.Cancels.{after_cancel, AllAnswered};
ghost use Rattle.world_moves.specs.Moves.{DeliveryLacksNumber, IsPartly, NodeLacksNumber, Stops, StopsMove};
ghost use Rattle.world_steps.specs.Runs.{AnswersStep};
ghost use Rattle.world_steps.specs.Scripts.{CanDo, CanRun, can_copy, can_start, StartsWhere, DeliversWhere, ListsWhere, Does, PartlyDoes, Commands, PartlyCommands, Drains, PartlyDrains, StopsDoing, StopsCommand, StopsDrain};
ghost use Rattle.world_moves.specs.Ties.{IsTied, Keeps, KeepsLaws};
ghost use Rattle.world_steps.specs.World.{HasReady};

use crate::acting::Stepped;
use crate::cancel_commands::cancel;
use crate::draining::empty;
use crate::moving::{deliver_and_refresh, list_and_refresh, settle, step_and_refresh};
use crate::ready::{Ready, refresh};
use crate::roots::{begin, start, start_reindex};
use crate::scrolls::scroll;
use crate::shuffling::shuffle;
use command_roots::{body_of, reindex_ask, reindex_body, search_ask};
use node_parts::listing::Listing;
use script_lang::{CancelTarget, Command};
use task_events::{Event, Request, Stop};
use task_ids::{Body, TaskId, Text};
use task_laws::drained_bans;
use world_moves::clock::tick;
use world_moves::state::State;

/// A search that has begun comes to its node, where its body has no fault and its index is known.
fn search(
    state: &mut State<'_>,
    ready: &mut Ready,
    number: u32,
    index: &Text,
    node: u32,
    scroll: Option<u64>,
    body: &Body,
) -> Result<(), Stop>
    requires tied { IsTied state.old }
    requires known { HasReady state.old ready.old }
    requires begun { beginning state.old.history ≡ Some number }
    requires asked { root_request state.old.script.now number state.old.history ≡ option_map Request.Search (option_map (search_ask index.now scroll) (body_or_none (body_at (is_some scroll) (least_size scroll) body.now))) }
    requires low { 1 ≤ node }
    requires high { node ≤ state.old.cluster.nodes }
    ensures done { OnOk result (StartsWhere state.old.cluster (can_start state.old.corpus.now state.old.script.now.commands index.now scroll body.now) number node state.old.history state.new.history) }
    ensures tied { OnOk result (IsTied state.new) }
    ensures known { OnOk result (HasReady state.new ready.new) }
    ensures keeps { Keeps state.old state.new }
    ensures part { OnErr result (IsPartly (StartsWhere state.old.cluster (can_start state.old.corpus.now state.old.script.now.commands index.now scroll body.now) number node) state.old.history state.new.history) }
    ensures laws { KeepsLaws state.new }
    ensures stop { IfErr result (λ stop. Stops (IsPartly (StartsWhere state.old.cluster (can_start state.old.corpus.now state.old.script.now.commands index.now scroll body.now) number node) state.old.history) ((can_start state.old.corpus.now state.old.script.now.commands index.now scroll body.now ≡ true) × NodeLacksNumber state.old.cluster state.old.history node × (state.new.history ≡ state.old.history)) state.new.history stop) }
{
    let Ok(found) = body_of(state.alloc, body, scroll.is_some()) else {
        return Err(Stop::Memory);
    };
    let Some(body) = found else {
        return Ok(());
    };
    if !state.shards.has(index.as_str()) {
        drop(body);
        return Ok(());
    }
    let Ok(ask) = search_ask(state.alloc, index, scroll, body) else {
        return Err(Stop::Memory);
    };
    let before = state.history.len();
    start(state, number, node, ask)?;
    match refresh(state, ready, before) {
        Ok(()) => Ok(()),
        Err(stop) => Err(stop),
    }
}

/// A reindex that has begun comes to its node, where its body has no fault and the index that it reads is known.
fn reindex(
    state: &mut State<'_>,
    ready: &mut Ready,
    number: u32,
    node: u32,
    body: &Body,
    slices: u32,
    rate: Option<u32>,
) -> Result<(), Stop>
    requires tied { IsTied state.old }
    requires known { HasReady state.old ready.old }
    requires begun { beginning state.old.history ≡ Some number }
    requires asked { root_request state.old.script.now number state.old.history ≡ option_map Request.Reindex (option_and_then (λ read. reindex_ask read slices rate) (result_ok (reindex_at body.now))) }
    requires low { 1 ≤ node }
    requires high { node ≤ state.old.cluster.nodes }
    requires slices { IsSliceCount slices }
    requires rate { IsRate rate }
    ensures done { OnOk result (StartsWhere state.old.cluster (can_copy state.old.corpus.now state.old.script.now.commands body.now) number node state.old.history state.new.history) }
    ensures tied { OnOk result (IsTied state.new) }
    ensures known { OnOk result (HasReady state.new ready.new) }
    ensures keeps { Keeps state.old state.new }
    ensures part { OnErr result (IsPartly (StartsWhere state.old.cluster (can_copy state.old.corpus.now state.old.script.now.commands body.now) number node) state.old.history state.new.history) }
    ensures laws { KeepsLaws state.new }
    ensures stop { IfErr result (λ stop. Stops (IsPartly (StartsWhere state.old.cluster (can_copy state.old.corpus.now state.old.script.now.commands body.now) number node) state.old.history) ((can_copy state.old.corpus.now state.old.script.now.commands body.now ≡ true) × NodeLacksNumber state.old.cluster state.old.history node × (state.new.history ≡ state.old.history)) state.new.history stop) }
{
    let Ok(found) = reindex_body(state.alloc, body) else {
        return Err(Stop::Memory);
    };
    let Some(body) = found else {
        return Ok(());
    };
    if !state.shards.has(body.source.as_str()) {
        drop(body);
        return Ok(());
    }
    let Ok(ask) = reindex_ask(state.alloc, body, slices, rate) else {
        return Err(Stop::Memory);
    };
    let before = state.history.len();
    start_reindex(state, number, node, ask)?;
    match refresh(state, ready, before) {
        Ok(()) => Ok(()),
        Err(stop) => Err(stop),
    }
}

/// Delivers the message of this place among those in flight, if there is one.
fn deliver(state: &mut State<'_>, ready: &mut Ready, nth: u64) -> Result<(), Stop>
    requires tied { IsTied state.old }
    requires known { HasReady state.old ready.old }
    ensures done { OnOk result (DeliversWhere state.old.cluster nth state.old.history state.new.history) }
    ensures tied { OnOk result (IsTied state.new) }
    ensures known { OnOk result (HasReady state.new ready.new) }
    ensures keeps { Keeps state.old state.new }
    ensures part { OnErr result (IsPartly (DeliversWhere state.old.cluster nth) state.old.history state.new.history) }
    ensures laws { KeepsLaws state.new }
    ensures stop { IfErr result (λ stop. Stops (IsPartly (DeliversWhere state.old.cluster nth) state.old.history) (DeliveryLacksNumber state.old.cluster state.old.history nth × (state.new.history ≡ state.old.history)) state.new.history stop) }
{
    if nth >= state.flight.len() as u64 {
        return Ok(());
    }
    match deliver_and_refresh(state, ready, nth as usize) {
        Ok(()) => Ok(()),
        Err(stop) => Err(stop),
    }
}

/// A cancel that has begun names and marks its tasks, or finds none, and it is noted which of them wait.
fn cancel_and_refresh(
    state: &mut State<'_>,
    ready: &mut Ready,
    number: u32,
    target: &CancelTarget,
    wait: bool,
) -> Result<(), Stop>
    requires tied { IsTied state.old }
    requires known { HasReady state.old ready.old }
    requires begun { beginning state.old.history ≡ Some number }
    requires number { IsCancel number }
    ensures done { OnOk result (state.new.history ≡ after_cancel state.old.cluster state.old.script.now number target.now wait state.old.history) }
    ensures tied { OnOk result (IsTied state.new) }
    ensures known { OnOk result (HasReady state.new ready.new) }
    ensures keeps { Keeps state.old state.new }
    ensures part { OnErr result (IsPartly (λ h new. new ≡ after_cancel state.old.cluster state.old.script.now number target.now wait h) state.old.history state.new.history) }
    ensures laws { KeepsLaws state.new }
    ensures stop { IfErr result (λ stop. StopsMove (λ h new. new ≡ after_cancel state.old.cluster state.old.script.now number target.now wait h) state.old.history state.new.history stop) }
{
    let before = state.history.len();
    match cancel(state, number, target, wait) {
        Ok(()) => {}
        Err(stop) => return Err(stop),
    }
    match refresh(state, ready, before) {
        Ok(()) => Ok(()),
        Err(stop) => Err(stop),
    }
}

/// A listing makes its next step, if it is open.
fn list(state: &mut State<'_>, ready: &mut Ready, listing: Listing) -> Result<(), Stop>
    requires tied { IsTied state.old }
    requires known { HasReady state.old ready.old }
    ensures done { OnOk result (ListsWhere listing state.old.history state.new.history) }
    ensures tied { OnOk result (IsTied state.new) }
    ensures known { OnOk result (HasReady state.new ready.new) }
    ensures keeps { Keeps state.old state.new }
    ensures part { OnErr result (IsPartly (ListsWhere listing) state.old.history state.new.history) }
    ensures laws { KeepsLaws state.new }
    ensures stop { IfErr result (λ stop. StopsMove (ListsWhere listing) state.old.history state.new.history stop) }
{
    match list_and_refresh(state, ready, listing) {
        Ok(_) => Ok(()),
        Err(stop) => Err(stop),
    }
}

/// A task makes its next step, unless it waits or is not live.
fn step(state: &mut State<'_>, ready: &mut Ready, task: TaskId) -> Result<(), Stop>
    requires tied { IsTied state.old }
    requires known { HasReady state.old ready.old }
    ensures done { OnOk result ((stepped : Stepped) × AnswersStep state.old.cluster state.old.corpus.now state.old.script.now task state.old.history stepped state.new.history) }
    ensures tied { OnOk result (IsTied state.new) }
    ensures known { OnOk result (HasReady state.new ready.new) }
    ensures keeps { Keeps state.old state.new }
    ensures part { OnErr result (IsPartly (λ h new. (stepped : Stepped) × AnswersStep state.old.cluster state.old.corpus.now state.old.script.now task h stepped new) state.old.history state.new.history) }
    ensures laws { KeepsLaws state.new }
    ensures stop { IfErr result (λ stop. StopsMove (λ h new. (stepped : Stepped) × AnswersStep state.old.cluster state.old.corpus.now state.old.script.now task h stepped new) state.old.history state.new.history stop) }
{
    match step_and_refresh(state, ready, task) {
        Ok(_) => Ok(()),
        Err(stop) => Err(stop),
    }
}

/// The clock moves on by so many milliseconds, and each context goes that was not used for its keep-alive.
fn tick_and_refresh(state: &mut State<'_>, ready: &mut Ready, ms: u64) -> Result<(), Stop>
    requires tied { IsTied state.old }
    requires known { HasReady state.old ready.old }
    requires low { clock state.old.history + ms ≤ last_command state.old.history * day_ms }
    requires high { ms ≤ day_ms }
    ensures done { OnOk result (state.new.history ≡ Event.Tick ms ∷ state.old.history) }
    ensures tied { OnOk result (IsTied state.new) }
    ensures known { OnOk result (HasReady state.new ready.new) }
    ensures keeps { Keeps state.old state.new }
    ensures part { OnErr result (IsPartly (λ h new. new ≡ Event.Tick ms ∷ h) state.old.history state.new.history) }
    ensures laws { KeepsLaws state.new }
    ensures stop { IfErr result (λ stop. StopsMove (λ h new. new ≡ Event.Tick ms ∷ h) state.old.history state.new.history stop) }
{
    let before = state.history.len();
    tick(state, ms)?;
    match refresh(state, ready, before) {
        Ok(()) => Ok(()),
        Err(stop) => Err(stop),
    }
}

/// Does what a command says that has begun.
fn act_on(
    state: &mut State<'_>,
    ready: &mut Ready,
    number: u32,
    command: &Command,
) -> Result<(), Stop>
    requires tied { IsTied state.old }
    requires known { HasReady state.old ready.old }
    requires begun { beginning state.old.history ≡ Some number }
    requires number { IsCancel number }
    requires there { command_at state.old.script.now number ≡ Some command.now }
    requires can { CanDo state.old.cluster.nodes command.now }
    // The clock has room for a day more.
    requires low { clock state.old.history + day_ms ≤ last_command state.old.history * day_ms }
    ensures done { OnOk result (Does state.old.cluster state.old.corpus.now state.old.script.now number command.now state.old.history state.new.history) }
    ensures tied { OnOk result (IsTied state.new) }
    ensures known { OnOk result (HasReady state.new ready.new) }
    ensures keeps { Keeps state.old state.new }
    ensures part { OnErr result (PartlyDoes state.old.cluster state.old.corpus.now state.old.script.now number command.now state.old.history state.new.history) }
    ensures laws { KeepsLaws state.new }
    ensures stop { IfErr result (λ stop. StopsDoing state.old.cluster state.old.corpus.now state.old.script.now number command.now state.old.history state.new.history stop) }
{
    match command {
        Command::Search {
            index,
            node,
            scroll,
            body,
            ..
        } => search(state, ready, number, index, *node, *scroll, body),
        Command::Scroll { context, keep, .. } => scroll(state, ready, number, context, *keep),
        Command::Reindex {
            node,
            body,
            slices,
            rate,
            ..
        } => reindex(state, ready, number, *node, body, *slices, *rate),
        Command::Tick { ms } => tick_and_refresh(state, ready, *ms),
        Command::Deliver { nth } => deliver(state, ready, *nth),
        Command::Cancel { target, wait, .. } => cancel_and_refresh(
            state, ready, number, target, *wait,
        ),
        Command::Step { task } => step(state, ready, *task),
        Command::ListStep { node, parent } => {
            let (node, parent) = (*node, *parent);
            list(state, ready, Listing { node, parent })
        }
        // One order of events is all that there is, so an answer is waited for by doing all that comes without the clock.
        Command::Settle | Command::WaitFor { .. } => settle(state, ready),
        Command::Shuffle { seed, moves } => shuffle(state, ready, *seed, *moves),
        // What a clear makes of the context, and a forget of the result, stands with its beginning.
        Command::ClearScroll { .. }
        | Command::ListTasks { .. }
        | Command::GetTask { .. }
        | Command::ForgetTask { .. }
        | Command::ListResults
        | Command::History
        | Command::Summary => Ok(()),
    }
}

/// A command begins, and it is known which tasks do not wait.
fn begin_and_refresh(state: &mut State<'_>, ready: &mut Ready, number: u32) -> Result<(), Stop>
    requires tied { IsTied state.old }
    requires known { HasReady state.old ready.old }
    requires next { last_command state.old.history + 1 ≡ number }
    requires few { number ≤ 65536 }
    ensures happened { OnOk result (state.new.history ≡ Event.Begin number ∷ state.old.history) }
    ensures tied { OnOk result (IsTied state.new) }
    ensures known { OnOk result (HasReady state.new ready.new) }
    ensures keeps { Keeps state.old state.new }
    ensures part { OnErr result ((state.new.history ≡ state.old.history) ⊎ (state.new.history ≡ Event.Begin number ∷ state.old.history)) }
    ensures laws { KeepsLaws state.new }
    ensures stop { IfErr result (λ stop. StopsMove (λ h new. new ≡ Event.Begin number ∷ h) state.old.history state.new.history stop) }
{
    let before = state.history.len();
    begin(state, number)?;
    match refresh(state, ready, before) {
        Ok(()) => Ok(()),
        Err(stop) => Err(stop),
    }
}

/// Begins the command of this number and does what it says.
pub(crate) fn command(state: &mut State<'_>, ready: &mut Ready, k: u32) -> Result<(), Stop>
    requires tied { IsTied state.old }
    requires known { HasReady state.old ready.old }
    requires can { CanRun state.old.cluster.nodes state.old.script.now.commands }
    requires next { last_command state.old.history + 1 ≡ k }
    requires there { k ≤ length state.old.script.now.commands }
    requires few { length state.old.script.now.commands ≤ 65535 }
    ensures done { OnOk result (Commands state.old.cluster state.old.corpus.now state.old.script.now k state.old.history state.new.history) }
    ensures tied { OnOk result (IsTied state.new) }
    ensures known { OnOk result (HasReady state.new ready.new) }
    ensures keeps { Keeps state.old state.new }
    ensures part { OnErr result (PartlyCommands state.old.cluster state.old.corpus.now state.old.script.now k state.old.history state.new.history) }
    ensures laws { KeepsLaws state.new }
    ensures stop { IfErr result (λ stop. StopsCommand state.old.cluster state.old.corpus.now state.old.script.now k state.old.history state.new.history stop) }
{
    match begin_and_refresh(state, ready, k) {
        Ok(()) => {}
        Err(stop) => return Err(stop),
    }
    let script = state.script;
    let Some(command) = script.commands.as_slice().get(k as usize - 1) else {
        unreachable!()
    };
    match act_on(state, ready, k, command) {
        Ok(()) => Ok(()),
        Err(stop) => Err(stop),
    }
}

/// Begins the closing drain: settles, and for as long as a task is live moves the clock on to the soonest moment for which one waits and
/// settles again.
pub(crate) fn drain(state: &mut State<'_>, ready: &mut Ready) -> Result<(), Stop>
    requires tied { IsTied state.old }
    requires known { HasReady state.old ready.old }
    requires last { last_command state.old.history ≡ length state.old.script.now.commands }
    requires few { length state.old.script.now.commands ≤ 65535 }
    ensures drained { OnOk result (Drains state.old.cluster state.old.corpus.now state.old.script.now state.old.history state.new.history) }
    ensures over { OnOk result (IsDrained state.new.history) }
    ensures answered { OnOk result (AllAnswered state.new.history) }
    ensures tied { OnOk result (IsTied state.new) }
    ensures known { OnOk result (HasReady state.new ready.new) }
    ensures keeps { Keeps state.old state.new }
    ensures part { OnErr result (PartlyDrains state.old.cluster state.old.corpus.now state.old.script.now state.old.history state.new.history) }
    ensures laws { KeepsLaws state.new }
    ensures stop { IfErr result (λ stop. StopsDrain state.old.cluster state.old.corpus.now state.old.script.now state.old.history state.new.history stop) }
{
    let closing = state.script.commands.as_slice().len() as u32 + 1;
    // Of a past in which nothing moves any more. It computes nothing.
    drained_bans();
    match begin_and_refresh(state, ready, closing) {
        Ok(()) => {}
        Err(stop) => return Err(stop),
    }
    match empty(state, ready) {
        Ok(()) => Ok(()),
        Err(stop) => Err(stop),
    }
}
