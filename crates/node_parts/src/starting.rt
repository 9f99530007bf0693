//! What a request makes: a task of its kind, with its work.

ghost use Rattle.std.specs.Prelude.{◌≡◌, List, IfOk, IfErr, is_some, option_copied};
ghost use Rattle.child_track.specs.Track.{new_track};
ghost use Rattle.node_parts.specs.Starting.{task_for, page_in};
ghost use Rattle.task_ids.specs.declared.doc.Doc.{Doc};
ghost use Rattle.task_work.specs.Works.{IsBegun, IsNewWork, IsWorkOn, is_page};

use crate::kinds::{action_of, description_of};
use crate::running::Running;
use child_track::ChildTrack;
use std::alloc::{AllocError, Global};
use task_events::{Context, Request, ScrollAsk, Stop};
use task_ids::{Boxed, Cluster, Headers, NewTask, TaskId};
use task_table::Ticket;
use task_work::Work;

/// The task that a request asks for, which carries these headers: of its kind, with what it works on, and as one that starts at
/// this moment, in milliseconds. It fails only for want of memory.
pub fn new_task(
    alloc: Global,
    request: &Request,
    parent: Option<TaskId>,
    start_ms: u64,
    headers: &Headers,
) -> Result<NewTask, AllocError>
    ensures { IfOk result (λ task. task ≡ task_for request.now parent start_ms headers.now) }
{
    let description = description_of(alloc, request)?;
    let headers = headers.copy()?;
    Ok(NewTask {
        action: action_of(request),
        description,
        start_ms,
        parent,
        headers,
    })
}

/// The page that a request asks for, where it asks for one.
fn page_in(request: &Request) -> Option<ScrollAsk>
    ensures { result ≡ page_in request.now }
{
    match request {
        Request::Scroll(ask) => Some(*ask.get()),
        _ => None,
    }
}

/// A task in an allocation of its own, so that a table of tasks moves no more of it than where it lies.
fn boxed(alloc: Global, running: Running) -> Result<Boxed<Running>, Stop>
    ensures running { IfOk result (λ boxed. boxed ≡ running) }
    ensures err { IfErr result (λ stop. stop ≡ Stop.Memory) }
{
    match Boxed::new(alloc, running) {
        Ok(boxed) => Ok(boxed),
        Err(failed) => {
            drop(failed);
            Err(Stop::Memory)
        }
    }
}

/// The task of a ticket, with the work that is asked of it and what its request carried. A page is given the context that it shows.
/// Where memory runs out (`Memory`) the ticket is given up.
pub fn with_work(
    alloc: Global,
    ticket: Ticket,
    request: &Request,
    cluster: &Cluster,
    context: Option<&Context>,
    is_new: bool,
    headers: Headers,
) -> Result<Boxed<Running>, Stop>
    requires given { is_some context ≡ is_page request.now }
    ensures running { IfOk result (λ running. running ≡ record {
      ticket = ticket;
      track = new_track ticket.id;
      work = running.work;
      page = page_in request.now;
      is_new = is_new;
      headers = headers;
    }) }
    ensures work { IfOk result (λ running.
        IsNewWork ticket.id request.now cluster.now.shards (option_copied context.entry) running.work) }
    ensures begun { (writes : List Doc) → IfOk result (λ running. IsWorkOn running.work writes) }
    ensures tied { IfOk result (λ running. IsBegun ticket.id request.now cluster.now.shards running.work) }
    ensures err { IfErr result (λ stop. stop ≡ Stop.Memory) }
{
    let task = ticket.id();
    match Work::new(alloc, task, request, cluster, context) {
        Ok(work) => boxed(
            alloc,
            Running {
                ticket,
                track: ChildTrack::new(alloc, task),
                work,
                page: page_in(request),
                is_new,
                headers,
            },
        ),
        Err(_) => {
            drop(headers);
            ticket.give_up();
            Err(Stop::Memory)
        }
    }
}
