//! A cluster of two nodes: the control worker of the first runs, and the test has the driver's part and that of the others.
ghost use Rattle.std.specs.Prelude.{◌≡◌, ◌≤◌, IfOk};

use control_worker::ControlCore;
use es_io::{Job, OpenGate};
use node_boards::{PlainBoard, PlainControl, PlainParts};
use node_link::{Body, Letter, Receiver, Sender, inbox};
use node_worker::{ControlKind, Worker, WorkerOut};
use run_facts::Of;
use std::alloc::{AllocError, Global};
use std::sync::Wait;
use task_events::Stop;
use task_ids::{AnyCancel, TaskId};

type Name = Of<AnyCancel>;

type Note = Letter<Name>;

/// A task of the other node.
const PARENT: TaskId = TaskId { node: 2, number: 7 };

// The ends of the inboxes of a cluster: those that the control worker has, and what comes to the data workers of its node, to the
// other control worker and to the driver.
#[derive(Drop)]
struct Ends {
    own: Receiver<Note>,
    senders: Vec<Sender<Note>>,
    datas: Vec<Receiver<Note>>,
    other: Receiver<Note>,
    driver: Receiver<Note>,
}

// One inbox more, with one sender.
fn add_inbox(alloc: Global, senders: &mut Vec<Sender<Note>>) -> Result<Receiver<Note>, AllocError> {
    let (mut one, receiver) = inbox::<Note>(alloc, 16, 1)?;
    senders.push(one.pop().ok_or(AllocError)?)?;
    Ok(receiver)
}

// Those of the data workers of a node.
fn add_inboxes(
    alloc: Global,
    senders: &mut Vec<Sender<Note>>,
    workers: u32,
) -> Result<Vec<Receiver<Note>>, AllocError> {
    let mut inboxes = Vec::new(alloc);
    for _ in 0..workers {
        inboxes.push(add_inbox(alloc, senders)?)?;
    }
    Ok(inboxes)
}

// New inboxes, by the numbers of their cluster, whose nodes have so many data workers. These letters are sent to the control worker.
fn new_ends<R: Wait>(
    rt: &R,
    alloc: Global,
    workers: u32,
    letters: Vec<Note>,
) -> Result<Ends, AllocError> {
    let (mut senders, own) = inbox::<Note>(alloc, 16, 2)?;
    let mut test = senders.pop().ok_or(AllocError)?;
    for letter in letters {
        drop(test.send(rt, letter));
    }
    let datas = add_inboxes(alloc, &mut senders, workers)?;
    let other = add_inbox(alloc, &mut senders)?;
    drop(add_inboxes(alloc, &mut senders, workers)?);
    let driver = add_inbox(alloc, &mut senders)?;
    Ok(Ends {
        own,
        senders,
        datas,
        other,
        driver,
    })
}

// Runs the control worker of a node with so many data workers, with these ends. It is none where it drained.
fn run_between<R: Wait + Sync>(
    rt: &R,
    alloc: Global,
    workers: u32,
    own: Receiver<Note>,
    senders: Vec<Sender<Note>>,
) -> Result<Option<Stop>, AllocError>
    requires workers { (1 ≤ workers) × (workers ≤ 4) }
{
    let core = ControlCore::new(alloc, 1, workers, 4)?;
    let PlainParts {
        board,
        control,
        seats: _,
    } = PlainBoard::<Name>::new(alloc, 1, 4, 2, 1)?;
    let seat = PlainControl::new(rt, &board, control);
    let gate = OpenGate;
    let kind = ControlKind::new(alloc, 2, core, seat, &gate);
    match Worker::new(alloc, kind, own, senders).run(rt) {
        WorkerOut::Drained(_) => Ok(None),
        WorkerOut::Stopped(stop, _) => Ok(Some(stop)),
    }
}

// How a control worker ended, and what came to the others.
#[derive(Drop)]
struct Heard {
    stop: Option<Stop>,
    datas: Vec<Receiver<Note>>,
    other: Receiver<Note>,
    driver: Receiver<Note>,
}

// The control worker of a node with so many data workers, which is sent these letters before it runs.
fn run_control<R: Wait + Sync>(
    rt: &R,
    alloc: Global,
    workers: u32,
    letters: Vec<Note>,
) -> Result<Heard, AllocError>
    requires workers { (1 ≤ workers) × (workers ≤ 4) }
{
    let Ends {
        own,
        senders,
        datas,
        other,
        driver,
    } = new_ends(rt, alloc, workers, letters)?;
    let stop = run_between(rt, alloc, workers, own, senders)?;
    Ok(Heard {
        stop,
        datas,
        other,
        driver,
    })
}

// This letter, and then those that tell it that all others have left.
fn and_farewells(alloc: Global, first: Note) -> Result<Vec<Note>, AllocError> {
    let mut letters = Vec::new(alloc);
    letters.push(first)?;
    letters.push(Letter::new(Body::DataLeft { worker: 0 }))?;
    letters.push(Letter::new(Body::ControlLeft { node: 2 }))?;
    Ok(letters)
}

// Whether no letter came to these.
fn have_heard_none<R: Wait>(rt: &R, inboxes: &mut [Receiver<Note>]) -> bool {
    for inbox in inboxes.iter_mut() {
        if inbox.try_take(rt).is_some() {
            return false;
        }
    }
    true
}

// Whether the next letter is the last, and tells that the control worker of the first node has left.
fn hears_that_it_left<R: Wait>(rt: &R, inbox: &mut Receiver<Note>) -> bool {
    let Some(letter) = inbox.try_take(rt) else {
        return false;
    };
    matches!(letter.body(), Body::ControlLeft { node: 1 }) && inbox.try_take(rt).is_none()
}

// Whether the next letter is the last, and tells that the cancel 2 finds no task.
fn hears_of_no_task<R: Wait>(rt: &R, inbox: &mut Receiver<Note>) -> bool {
    let Some(letter) = inbox.try_take(rt) else {
        return false;
    };
    matches!(letter.body(), Body::NotFound { cancel: 2 }) && inbox.try_take(rt).is_none()
}

// Whether the next letter tells that the ban of the parent is placed on the first node.
fn hears_of_the_ban<R: Wait>(rt: &R, inbox: &mut Receiver<Note>) -> bool {
    let Some(letter) = inbox.try_take(rt) else {
        return false;
    };
    match letter.body() {
        Body::Ack { parent, from: 1 } => *parent == PARENT,
        _ => false,
    }
}

#[test]
fn it_leaves_once_all_others_have(rt: HostRuntime) -> Result<(), AllocError> {
    let cancel = Letter::new(Body::Cancel {
        cancel: 2,
        task: TaskId { node: 1, number: 3 },
        wait: false,
    });
    let letters = and_farewells(rt.alloc(), cancel)?;
    let mut heard = run_control(&rt, rt.alloc(), 1, letters)?;
    assert!(rt; heard.stop.is_none());
    assert!(rt; hears_of_no_task(&rt, &mut heard.driver));
    assert!(rt; hears_that_it_left(&rt, &mut heard.other));
    assert!(rt; have_heard_none(&rt, &mut heard.datas));
    Ok(())
}

#[test]
fn it_acknowledges_a_ban_and_leaves_once_that_is_lifted(rt: HostRuntime) -> Result<(), AllocError> {
    let ban = Letter::new(Body::Ban {
        parent: PARENT,
        cancel: 2,
        to: 1,
    });
    let mut letters = and_farewells(rt.alloc(), ban)?;
    letters.push(Letter::new(Body::Unban {
        parent: PARENT,
        to: 1,
    }))?;
    let mut heard = run_control(&rt, rt.alloc(), 1, letters)?;
    assert!(rt; heard.stop.is_none());
    assert!(rt; hears_of_the_ban(&rt, &mut heard.other));
    assert!(rt; hears_that_it_left(&rt, &mut heard.other));
    assert!(rt; have_heard_none(&rt, &mut heard.datas) && heard.driver.try_take(&rt).is_none());
    Ok(())
}

#[test]
fn it_stops_where_a_letter_says_so(rt: HostRuntime) -> Result<(), AllocError> {
    let mut letters = Vec::new(rt.alloc());
    letters.push(Letter::new(Body::Stop(Stop::NumbersSpent)))?;
    letters.push(Letter::new(Body::DataLeft { worker: 0 }))?;
    let mut heard = run_control(&rt, rt.alloc(), 1, letters)?;
    assert!(rt; heard.stop == Some(Stop::NumbersSpent));
    assert!(rt; heard.other.try_take(&rt).is_none() && heard.driver.try_take(&rt).is_none());
    Ok(())
}

#[test]
fn it_leaves_once_each_of_two_data_workers_has(rt: HostRuntime) -> Result<(), AllocError> {
    let cancel = Letter::new(Body::Cancel {
        cancel: 2,
        task: TaskId { node: 1, number: 3 },
        wait: false,
    });
    let mut letters = Vec::new(rt.alloc());
    letters.push(Letter::new(Body::DataLeft { worker: 1 }))?;
    for last in and_farewells(rt.alloc(), cancel)? {
        letters.push(last)?;
    }
    let mut heard = run_control(&rt, rt.alloc(), 2, letters)?;
    assert!(rt; heard.stop.is_none());
    assert!(rt; hears_of_no_task(&rt, &mut heard.driver));
    assert!(rt; hears_that_it_left(&rt, &mut heard.other));
    assert!(rt; have_heard_none(&rt, &mut heard.datas));
    Ok(())
}

#[test]
fn it_does_not_leave_before_the_last_data_worker(rt: HostRuntime) -> Result<(), AllocError> {
    let mut letters = Vec::new(rt.alloc());
    letters.push(Letter::new(Body::DataLeft { worker: 0 }))?;
    letters.push(Letter::new(Body::DataLeft { worker: 0 }))?;
    letters.push(Letter::new(Body::Stop(Stop::NumbersSpent)))?;
    let mut heard = run_control(&rt, rt.alloc(), 2, letters)?;
    assert!(rt; heard.stop == Some(Stop::NumbersSpent));
    assert!(rt; heard.other.try_take(&rt).is_none() && heard.driver.try_take(&rt).is_none());
    Ok(())
}
