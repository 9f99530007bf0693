//! A cluster of one node: its two workers run in threads of their own, with a driver.
ghost use Rattle.std.specs.Prelude.{◌<◌, ◌≤◌};
ghost use Rattle.task_ids.specs.Limits.{IsSlotCount};

use crate::commands::{Name, Note, Plays, search};
use crate::driver::{Driver, Heard};
use es_io::{Gate, ThreadSpawner};
use node_worker::{Turns, Worker};
use run_inboxes::{Ends, inboxes};
use run_threads::{Workers, run_workers};
use std::alloc::{AllocError, Global};
use std::sync::Wait;
use std::thread::Threads;

/// How large the boards and inboxes are.
#[derive(Clone, Copy)]
pub struct Room {
    /// For how many live tasks the board has slots.
    pub slots: u32,
    /// For how many bans it has room.
    pub bans: u32,
    /// For how many letters each inbox has room.
    pub capacity: u32,
    pub ghost some_slots: { IsSlotCount slots },
    pub ghost some_bans: { IsSlotCount bans },
    pub ghost some_letters: { 0 < capacity },
}

/// What is played: the data worker finds the starts of so many searches, and the driver cancels the first of them, so many, and hears so
/// many letters.
#[derive(Drop)]
pub struct Play<'g, G: Gate> {
    pub room: Room,
    pub gate: &'g G,
    pub searches: u32,
    pub cancels: u32,
    pub letters: u32,
    pub ghost few_searches: { searches ≤ 10 },
    pub ghost few_cancels: { cancels ≤ 10 },
}

// Sends the starts of so many searches to the data worker. It says whether it could.
fn begin<R: Wait>(rt: &R, alloc: Global, driver: &mut Ends<Note>, searches: u32) -> bool
    requires few { searches ≤ 10 }
{
    let Some(sender) = driver.senders.get_mut(1) else {
        return false;
    };
    for before in 0..searches {
        let Some(letter) = search(alloc, before + 1) else {
            return false;
        };
        if sender.send(rt, letter).is_err() {
            return false;
        }
    }
    true
}

// A worker with its ends of the inboxes.
fn worker<T: Turns<Name>>(alloc: Global, kind: T, ends: Ends<Note>) -> Worker<Name, T>
    requires { T.fits kind }
{
    let Ends { inbox, senders } = ends;
    Worker::new(alloc, kind, inbox, senders)
}

// A list of one worker.
fn one<T: Drop>(alloc: Global, worker: T) -> Result<Vec<T>, AllocError> {
    let mut all = Vec::new(alloc);
    all.push(worker)?;
    Ok(all)
}

/// Runs the workers of a node in threads, and plays. It is what the driver heard, where both workers drained.
pub fn run<
    C: Turns<Name> + Send + Drop,
    D: Turns<Name> + Send + Drop,
    G: Gate,
    R: Threads + Wait + Sync,
>(
    rt: &R,
    alloc: Global,
    play: &Play<'_, G>,
    control: C,
    data: D,
) -> Result<Option<Heard>, AllocError>
    requires fits_control { C.fits control }
    requires fits_data { D.fits «data» }
{
    let mut ends = inboxes::<Note>(alloc, play.room.capacity, 3)?;
    let (Some(mut driver), Some(of_data), Some(of_control)) = (ends.pop(), ends.pop(), ends.pop())
    else {
        return Ok(None);
    };
    if !begin(rt, alloc, &mut driver, play.searches) {
        return Ok(None);
    }
    let workers = Workers {
        controls: one(alloc, worker(alloc, control, of_control))?,
        datas: one(alloc, one(alloc, worker(alloc, data, of_data))?)?,
        driver,
    };
    let mut drive = Driver {
        gate: play.gate,
        cancels: play.cancels,
        letters: play.letters,
        heard: Heard {
            found: 0,
            cancelled: 0,
            done: 0,
        },
    };
    let mut spawner = ThreadSpawner::new();
    match run_workers::<Plays, C, D, ThreadSpawner, Driver<'_, G>, R>(
        rt,
        alloc,
        workers,
        &mut spawner,
        &mut drive,
    ) {
        Ok(_) => Ok(Some(drive.heard)),
        Err(_) => Ok(None),
    }
}
