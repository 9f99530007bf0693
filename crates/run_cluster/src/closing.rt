// The end of a cluster.
ghost use Rattle.std.specs.Prelude.{◌≡◌, ◌+◌, ◌≤◌, IfOk, length};
ghost use Rattle.run_facts.specs.Inboxes.{driver_of};
ghost use Rattle.run_inboxes.specs.Pairs.{Pairwise};
ghost use Rattle.run_inboxes.specs.Ends.{AreLinked};
ghost use Rattle.run_cluster.specs.Boards.{AreSeatsOf};
ghost use Rattle.run_cluster.specs.Closing.{IsClosedBoard};
ghost use Rattle.run_cluster.specs.Notes.{AreNoted, AreNotesOf, AreNotes};

use crate::boards::Seats;
use crate::left::Left;
use crate::notes::{NodeNote, RunNotes};
use crate::places::{Piles, Place, Places, deal};
use node_link::Tally;
use race_board::{Closed, RaceBoard};
use run_facts::{Of, Run};
use run_inboxes::close_all;
use std::alloc::{AllocError, Global};
use std::sync::Wait;
use task_ids::{BoardName, Items};

// Closes a board.
fn closed<N: BoardName>(board: RaceBoard<N>, seats: Seats<N>) -> Closed
    requires { AreSeatsOf board seats }
    ensures { IsClosedBoard seats result }
{
    let Seats { control, datas } = seats;
    board.close(control, datas)
}

// Closes the boards of all nodes.
fn all_closed<N: BoardName>(
    alloc: Global,
    boards: Vec<RaceBoard<N>>,
    seats: Vec<Seats<N>>,
) -> Result<Vec<Closed>, AllocError>
    requires { Pairwise AreSeatsOf boards.items seats.items }
    ensures { IfOk result (λ all. Pairwise IsClosedBoard seats.items all.items) }
{
    let mut seats = seats;
    let mut all = Vec::new(alloc);
    seats.reverse();
    for board in boards {
        let own = seats.pop().unwrap();
        all.push(closed(board, own))?;
    }
    Ok(all)
}

// The note of each node, of what belongs to it.
fn node_notes(alloc: Global, places: Vec<Place<Closed, Tally>>) -> Result<Vec<NodeNote>, AllocError>
    requires { length places.items ≤ 15 }
    ensures { IfOk result (λ notes. AreNoted places.items notes.items) }
{
    let mut notes = Vec::new(alloc);
    let mut before = 0u32;
    for place in places {
        let Place {
            board,
            control,
            datas,
        } = place;
        notes.push(NodeNote {
            node: before + 1,
            closed: board,
            control,
            datas: Items::from_vec(datas),
        })?;
        before += 1;
    }
    Ok(notes)
}

// The notes of all nodes, each with so many data workers, of what their boards told and what was sent into all inboxes.
fn notes_of(
    alloc: Global,
    boards: Vec<Closed>,
    inboxes: Vec<Tally>,
    workers: u32,
) -> Result<RunNotes, AllocError>
    requires few { length boards.items ≤ 15 }
    requires inboxes { length inboxes.items ≡ driver_of workers (length boards.items) + 1 }
    ensures { IfOk result (AreNotesOf workers boards.items inboxes.items) }
{
    let Places { places, driver } = deal(alloc, Piles { boards, inboxes }, workers)?;
    let nodes = node_notes(alloc, places)?;
    Ok(RunNotes { nodes, driver })
}

/// Closes the boards and the inboxes of a cluster with what its workers, so many data workers on each node, and its driver left. It fails
/// only for want of memory.
pub(crate) fn close<W: Run, R: Wait>(
    rt: &R,
    alloc: Global,
    boards: Vec<RaceBoard<Of<W>>>,
    left: Left<Of<W>>,
    workers: u32,
) -> Result<RunNotes, AllocError>
    requires few { length boards.items ≤ 15 }
    requires seats { Pairwise AreSeatsOf boards.items left.boards.items }
    requires linked { AreLinked left.inboxes.items }
    requires ends { length left.inboxes.items ≡ driver_of workers (length boards.items) + 1 }
    ensures { IfOk result (AreNotes workers left.boards.items left.inboxes.items) }
{
    let Piles {
        boards: seats,
        inboxes: ends,
    } = left;
    let inboxes = close_all(rt, alloc, ends)?;
    let boards = all_closed(alloc, boards, seats)?;
    let notes = notes_of(alloc, boards, inboxes, workers)?;
    Ok(notes)
}
