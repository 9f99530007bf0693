//! Plays of a driver with a control worker in a thread of its own.
ghost use Rattle.std.specs.Prelude.{◌≡◌, IfSome};
ghost use Rattle.node_boards.specs.Seats.{HasNoBan, HasTicket, IsFresh};

use crate::ends::{DriverEnds, Name, new_ends};
use crate::threads::{finish, new_worker, start};
use child_track::{ChildTrack, Receipt};
use es_io::OpenGate;
use node_boards::{ControlBoard, DataBoard};
use node_link::{Body, Letter};
use node_worker::WorkerOut;
use std::alloc::{AllocError, Global};
use std::sync::Wait;
use std::thread;
use std::thread::Threads;
use task_events::Stop;
use task_ids::TaskId;
use task_table::{Full, Ticket};

/// The driver's part: a task that is not there is cancelled, and then the data worker leaves.
fn misses_and_leaves<R: Wait>(rt: &R, ends: &mut DriverEnds) -> bool {
    let task = TaskId { node: 1, number: 3 };
    let cancel = Letter::new(Body::Cancel {
        cancel: 2,
        task,
        wait: false,
    });
    if !ends.tell(rt, cancel) {
        return false;
    }
    let answer = ends.hear(rt);
    let is_missed = matches!(answer, Body::NotFound { cancel: 2 });
    drop(answer);
    is_missed && ends.tell(rt, Letter::new(Body::DataLeft { worker: 0 }))
}

/// Whether a control worker that is told that its data worker has left ends with nothing left to do.
pub(crate) fn leaves<B: ControlBoard<Name> + Send + Drop, R: Threads + Wait + Sync>(
    rt: &R,
    alloc: Global,
    board: B,
) -> Result<bool, AllocError>
    requires fresh { HasNoBan (B.bans board) }
    requires slots { B.slots board ≡ 4 }
{
    let (mut driver, control) = new_ends(alloc)?;
    let gate = OpenGate;
    let worker = new_worker(alloc, board, control, &gate)?;
    let is_drained = thread::scope(thread::scope_env(), rt, |scope| -> bool {
        let Some(started) = start(rt, scope, worker) else {
            return false;
        };
        let is_driven = misses_and_leaves(rt, &mut driver);
        match finish(rt, started) {
            WorkerOut::Drained(_) => is_driven,
            WorkerOut::Stopped(_, _) => false,
        }
    });
    Ok(is_drained && driver.has_heard_all(rt))
}

/// Whether a control worker that is told to stop does so for that cause.
pub(crate) fn stops<B: ControlBoard<Name> + Send + Drop, R: Threads + Wait + Sync>(
    rt: &R,
    alloc: Global,
    board: B,
) -> Result<bool, AllocError>
    requires fresh { HasNoBan (B.bans board) }
    requires slots { B.slots board ≡ 4 }
{
    let (mut driver, control) = new_ends(alloc)?;
    let gate = OpenGate;
    let worker = new_worker(alloc, board, control, &gate)?;
    let is_stopped = thread::scope(thread::scope_env(), rt, |scope| -> bool {
        let Some(started) = start(rt, scope, worker) else {
            return false;
        };
        let is_told = driver.tell(rt, Letter::new(Body::Stop(Stop::NumbersSpent)));
        match finish(rt, started) {
            WorkerOut::Drained(_) => false,
            WorkerOut::Stopped(stop, _) => is_told && stop == Stop::NumbersSpent,
        }
    });
    Ok(is_stopped && driver.has_heard_all(rt))
}

/// Registers a root.
fn claim_root<D: DataBoard<Name>>(seat: &mut D) -> Option<Ticket>
    requires new { IsFresh (D.has seat.old) (D.drawn seat.old) }
    ensures held { IfSome result (HasTicket (D.has seat.new)) }
{
    let number = seat.draw()?;
    match seat.claim(number, None, None) {
        Ok(ticket) => Some(ticket),
        Err(Full(token)) => {
            if let Some(token) = token {
                let _receipt = token.reject();
            }
            None
        }
    }
}

/// Whether the letter answers the sixth cancel, that the bans of the task are placed.
fn is_placed(body: &Body, asked: TaskId) -> bool {
    match body {
        Body::AnswerPlaced { cancel: 6, task } => *task == asked,
        _ => false,
    }
}

/// Whether the letter answers the fifth cancel, that the task has ended with this receipt.
fn is_done(body: &Body, asked: TaskId, ended: Receipt) -> bool {
    match body {
        Body::AnswerDone {
            cancel: 5,
            task,
            receipt,
        } => *task == asked && *receipt == ended,
        _ => false,
    }
}

/// The driver's part: a live task is cancelled twice, and ends. The cancel that does not wait is answered first, and by then the
/// other was taken in.
fn cancels_and_ends<D: DataBoard<Name>, R: Wait>(
    rt: &R,
    alloc: Global,
    ends: &mut DriverEnds,
    seat: &mut D,
    ticket: Ticket,
) -> bool
    requires held { HasTicket (D.has seat.old) ticket }
{
    let task = ticket.id();
    let first = Letter::new(Body::Cancel {
        cancel: 5,
        task,
        wait: true,
    });
    let second = Letter::new(Body::Cancel {
        cancel: 6,
        task,
        wait: false,
    });
    let is_sent = ends.tell(rt, first) && ends.tell(rt, second);
    let placed = ends.hear(rt);
    let is_marked = seat.look(&ticket) == Some(5);
    let ended = seat.end(ticket, ChildTrack::new(alloc, task));
    let receipt = ended.receipt;
    let is_told = ends.tell(rt, Letter::new(Body::Ended { receipt }));
    let done = ends.hear(rt);
    let is_left = ends.tell(rt, Letter::new(Body::DataLeft { worker: 0 }));
    let is_answered = is_placed(&placed, task) && is_done(&done, task, receipt);
    drop((placed, done));
    is_sent && is_marked && is_told && is_left && is_answered
}

/// Whether a control worker marks a live task, answers a cancel that does not wait, and one that waits once the task has ended.
pub(crate) fn cancels<
    D: DataBoard<Name> + Drop,
    B: ControlBoard<Name> + Send + Drop,
    R: Threads + Wait + Sync,
>(rt: &R, alloc: Global, mut seat: D, board: B) -> Result<bool, AllocError>
    requires new { IsFresh (D.has seat) (D.drawn seat) }
    requires fresh { HasNoBan (B.bans board) }
    requires slots { B.slots board ≡ 4 }
{
    let (mut driver, control) = new_ends(alloc)?;
    let gate = OpenGate;
    let worker = new_worker(alloc, board, control, &gate)?;
    let is_drained = thread::scope(
        thread::scope_env(),
        rt,
        |scope| -> bool
            requires { IsFresh (D.has seat) (D.drawn seat) }
        {
            let Some(ticket) = claim_root(&mut seat) else {
                return false;
            };
            let Some(started) = start(rt, scope, worker) else {
                ticket.give_up();
                return false;
            };
            let is_driven = cancels_and_ends(rt, alloc, &mut driver, &mut seat, ticket);
            match finish(rt, started) {
                WorkerOut::Drained(_) => is_driven,
                WorkerOut::Stopped(_, _) => false,
            }
        },
    );
    Ok(is_drained && driver.has_heard_all(rt))
}
