// A worker as a job.
ghost use Rattle.std.specs.Prelude.{◌≡◌};

use crate::desk::Desk;
use crate::post::Post;
use crate::turns::Turns;
use es_io::Job;
use node_link::{Letter, Receiver, RunName, Sender};
use std::alloc::Global;
use std::collections::VecDeque;
use std::marker::Model;
use std::sync::Wait;
use task_events::Stop;

/// A worker before it runs, with the ends of its inboxes.
#[derive(Drop)]
pub struct Worker<N: RunName, T: Turns<N>> {
    alloc: Global,
    worker: T,
    inbox: Receiver<Letter<N>>,
    senders: Vec<Sender<Letter<N>>>,
}

impl<N: RunName, T: Turns<N>> Model for Worker<N, T> {
    ghost use Rattle.std.specs.Coded.{codes};
    ghost use Rattle.node_link.specs.contracts.body.Body as body_row;
    ghost use Rattle.node_worker.specs.Job.{Begun};

    ghost Value = { Begun T };

    ghost coded = { Prim.hlevel (codes, body_row.the_row.coded) };

    ghost view = { λ w. record { worker = w.worker; inbox = w.inbox; senders = w.senders.items } };

    ghost invariant = { λ w. T.fits w.worker };
}

impl<N: RunName, T: Turns<N>> Worker<N, T> {
    /// A worker that takes letters from this inbox, and sends letters by these senders, each of which leads to the inbox of
    /// its number in the list.
    pub fn new(
        alloc: Global,
        worker: T,
        inbox: Receiver<Letter<N>>,
        senders: Vec<Sender<Letter<N>>>,
    ) -> Worker<N, T>
        requires { T.fits worker }
        ensures { result ≡ record { worker = worker; inbox = inbox; senders = senders.items } }
    {
        Worker {
            alloc,
            worker,
            inbox,
            senders,
        }
    }
}

/// What a worker leaves.
#[derive(Drop)]
pub struct Rest<N: RunName, T> {
    pub worker: T,
    pub inbox: Receiver<Letter<N>>,
    pub senders: Vec<Sender<Letter<N>>>,
}

/// How a worker ended.
#[derive(Drop)]
pub enum WorkerOut<R> {
    /// It had nothing left to do, and sent all that it gave.
    Drained(R),
    /// It had to stop. What it kept to be sent is lost.
    Stopped(Stop, R),
}

// What a worker leaves of its desk.
fn leave<N: RunName, T: Drop>(desk: Desk<N, T>) -> Rest<N, T>
    ensures { (result.worker ≡ desk.worker) × (result.inbox ≡ desk.inbox) × (result.senders ≡ desk.senders) }
{
    let Desk {
        worker,
        inbox,
        senders,
        kept: _,
    } = desk;
    Rest {
        worker,
        inbox,
        senders,
    }
}

impl<N: RunName + Send, T: Turns<N> + Send + Drop> Job for Worker<N, T> {
    type Out = WorkerOut<Rest<N, T>>;

    ghost use Rattle.node_worker.specs.Job.{Gives};

    ghost gives = { Gives T.did T.at_rest T.fits };

    fn run<R: Wait>(self, rt: &R) -> WorkerOut<Rest<N, T>> {
        let Worker {
            alloc,
            worker,
            inbox,
            senders,
        } = self;
        let mut desk = Desk {
            worker,
            inbox,
            senders,
            kept: VecDeque::new(alloc),
        };
        match desk.work(rt) {
            Ok(()) => WorkerOut::Drained(leave(desk)),
            Err(stop) => WorkerOut::Stopped(stop, leave(desk)),
        }
    }
}
