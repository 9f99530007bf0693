//! Pages of searches, and the contexts that commands are about.

ghost use Rattle.std.specs.Prelude.{◌≡◌, ◌≤◌, true, Some, None, option_and_then, IfErr, OnOk, OnErr, ℕ};
ghost use Rattle.task_events.specs.declared.request.Request.TheVariants as asks;
ghost use Rattle.task_events.specs.Cancels.{beginning};
ghost use Rattle.task_events.specs.Contexts.{can_clear, context_at};
ghost use Rattle.command_roots.specs.Roots.{context_named, cleared, page_answer, root_request, scripted};
ghost use Rattle.world_moves.specs.Moves.{IsPartly, NodeLacksNumber, Stops};
ghost use Rattle.world_moves.specs.Ties.{IsTied, Keeps, KeepsLaws};
ghost use Rattle.world_steps.specs.Scripts.{StartsWhere, can_page, page_node, error_in};
ghost use Rattle.world_steps.specs.World.{HasReady};

use crate::ready::{Ready, refresh};
use crate::roots::start_page;
use script_lang::{Command, ContextTarget};
use scroll_table::PageError;
use task_events::{ScrollAsk, Stop};
use task_ids::TaskId;
use world_moves::pages::{context_at, peek};
use world_moves::state::State;

/// The context that a command is about, by its id.
pub(crate) fn named(state: &State<'_>, target: &ContextTarget) -> Option<TaskId>
    requires tied { IsTied state.now }
    ensures { result ≡ context_named target.now state.now.history }
{
    match target {
        ContextTarget::Id(id) => Some(*id),
        ContextTarget::Command(number) => state.roots.get(number).copied(),
    }
}

/// The context that a command of this number clears, from 1, if it clears one.
pub(crate) fn cleared(state: &State<'_>, number: u32) -> Option<TaskId>
    requires tied { IsTied state.now }
    requires low { 1 ≤ number }
    ensures { result ≡ cleared state.now.script.now number state.now.history }
{
    match state.script.commands.as_slice().get(number as usize - 1) {
        Some(Command::ClearScroll { context }) => named(state, context),
        _ => None,
    }
}

/// Why a command has no page of the context that it is about, if it has none.
pub(crate) fn no_page(state: &State<'_>, target: &ContextTarget) -> Option<PageError>
    requires tied { IsTied state.now }
    ensures { result ≡ error_in (page_answer state.now.script.now target.now state.now.history) }
{
    match named(state, target) {
        Some(id) => peek(state.contexts.as_slice(), id, state.clock).err(),
        None => Some(PageError::Missing),
    }
}

/// Whether a command frees the context that it is about.
pub(crate) fn can_clear(state: &State<'_>, target: &ContextTarget) -> bool
    requires tied { IsTied state.now }
    ensures { result ≡ can_clear None (option_and_then (λ id. context_at (scripted state.now.script.now) id state.now.history) (context_named target.now state.now.history)) }
{
    match named(state, target) {
        Some(id) => match context_at(state.contexts.as_slice(), id) {
            Some(context) => context.is_owned_by(None) && context.busy.is_none(),
            None => false,
        },
        None => false,
    }
}

/// A scroll that has begun comes to the node of its context, where it may use that.
pub(crate) fn scroll(
    state: &mut State<'_>,
    ready: &mut Ready,
    number: u32,
    target: &ContextTarget,
    keep: Option<u64>,
) -> Result<(), Stop>
    requires tied { IsTied state.old }
    requires known { HasReady state.old ready.old }
    requires begun { beginning state.old.history ≡ Some number }
    requires asked { (id : TaskId) → context_named target.now state.old.history ≡ Some id
        → root_request state.old.script.now number state.old.history ≡ Some (asks.Scroll (record { id = id; keep = keep; owner = None })) }
    ensures done { OnOk result (StartsWhere state.old.cluster (can_page state.old.script.now target.now state.old.history) number (page_node target.now state.old.history) state.old.history state.new.history) }
    ensures tied { OnOk result (IsTied state.new) }
    ensures known { OnOk result (HasReady state.new ready.new) }
    ensures keeps { Keeps state.old state.new }
    ensures part { OnErr result (IsPartly (StartsWhere state.old.cluster (can_page state.old.script.now target.now state.old.history) number (page_node target.now state.old.history)) state.old.history state.new.history) }
    ensures laws { KeepsLaws state.new }
    ensures stop { IfErr result (λ stop. Stops (IsPartly (StartsWhere state.old.cluster (can_page state.old.script.now target.now state.old.history) number (page_node target.now state.old.history)) state.old.history) ((can_page state.old.script.now target.now state.old.history ≡ true) × NodeLacksNumber state.old.cluster state.old.history (page_node target.now state.old.history) × (state.new.history ≡ state.old.history)) state.new.history stop) }
{
    if no_page(state, target).is_some() {
        return Ok(());
    }
    let Some(id) = named(state, target) else {
        unreachable!()
    };
    let before = state.history.len();
    let owner = None;
    start_page(state, number, ScrollAsk { id, keep, owner })?;
    match refresh(state, ready, before) {
        Ok(()) => Ok(()),
        Err(stop) => Err(stop),
    }
}
