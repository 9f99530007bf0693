// What the workers of a cluster left.
ghost use Rattle.std.specs.Prelude.{◌≡◌, IfOk, length, map};
ghost use Rattle.run_inboxes.specs.Pairs.{Threewise};
ghost use Rattle.run_threads.specs.Jobs.{lists_of};
ghost use Rattle.run_cluster.specs.Crews.{seat_left, ends_left, IsLeftBy, AreLeft};

use crate::boards::Seats;
use crate::jobs::{Control, Data, Note};
use crate::places::{Piles, Place, Places, pile};
use es_io::Gate;
use node_link::{Letter, RunName};
use node_worker::Rest;
use race_board::DataSeat;
use run_facts::{Of, Run};
use run_inboxes::Ends;
use run_threads::WorkersRest;
use std::alloc::{AllocError, Global};

/// What the workers of a cluster left, and the driver's ends of their inboxes.
pub(crate) type CrewRest<'b, W, G> = WorkersRest<Of<W>, Control<'b, W, G>, Data<'b, W, G>>;

/// The seats of each node's board, and the ends of all inboxes, by their numbers.
pub(crate) type Left<N> = Piles<Seats<N>, Ends<Letter<N>>>;

// What the data workers of a node left.
#[derive(Drop)]
struct DatasLeft<N: RunName> {
    seats: Vec<DataSeat<N>>,
    ends: Vec<Ends<Letter<N>>>,
}

// What the data workers of a node left, taken apart.
fn datas_left<'b, W: Run, G: Gate>(
    alloc: Global,
    datas: Vec<Rest<Of<W>, Data<'b, W, G>>>,
) -> Result<DatasLeft<Of<W>>, AllocError>
    ensures seats { IfOk result (λ left. left.seats.items ≡ map seat_left datas.entry.items) }
    ensures ends { IfOk result (λ left. left.ends.items ≡ map ends_left datas.entry.items) }
{
    let mut left = DatasLeft {
        seats: Vec::new(alloc),
        ends: Vec::new(alloc),
    };
    for own in datas {
        let Rest {
            worker,
            inbox,
            senders,
        } = own;
        left.ends.push(Ends { inbox, senders })?;
        left.seats.push(worker.into_board().into_seat())?;
    }
    Ok(left)
}

// What the workers of a node left, taken apart.
fn place_left<'b, W: Run, G: Gate>(
    alloc: Global,
    control: Rest<Of<W>, Control<'b, W, G>>,
    datas: Vec<Rest<Of<W>, Data<'b, W, G>>>,
) -> Result<Place<Seats<Of<W>>, Ends<Note<W>>>, AllocError>
    ensures { IfOk result (IsLeftBy control.entry datas.entry.items) }
{
    let DatasLeft { seats, ends } = datas_left(alloc, datas)?;
    let Rest {
        worker,
        inbox,
        senders,
    } = control;
    Ok(Place {
        board: Seats {
            control: worker.into_board().into_seat(),
            datas: seats,
        },
        control: Ends { inbox, senders },
        datas: ends,
    })
}

// Lets go of what was left.
fn let_go<N: RunName, D: Drop>(datas: Vec<Vec<Rest<N, D>>>) {
    drop(datas);
}

// What the workers of all nodes left, taken apart.
fn places_left<'b, W: Run, G: Gate>(
    alloc: Global,
    controls: Vec<Rest<Of<W>, Control<'b, W, G>>>,
    datas: &mut Vec<Vec<Rest<Of<W>, Data<'b, W, G>>>>,
) -> Result<Vec<Place<Seats<Of<W>>, Ends<Note<W>>>>, AllocError>
    requires { length datas.old.items ≡ length controls.items }
    ensures { IfOk result (λ places. Threewise IsLeftBy controls.entry.items (lists_of datas.old.items) places.items) }
{
    let mut places = Vec::new(alloc);
    datas.reverse();
    for control in controls {
        let own = datas.pop().unwrap();
        places.push(place_left(alloc, control, own)?)?;
    }
    Ok(places)
}

/// What was left, taken apart: the seats and the ends stand in the order in which they were dealt. It fails only for want of memory.
pub(crate) fn left_of<'b, W: Run, G: Gate>(
    alloc: Global,
    rest: CrewRest<'b, W, G>,
) -> Result<Left<Of<W>>, AllocError>
    requires { length rest.datas.items ≡ length rest.controls.items }
    ensures { IfOk result (λ left. AreLeft rest.entry.controls.items (lists_of rest.entry.datas.items) left.boards.items left.inboxes.items rest.entry.driver) }
{
    let WorkersRest {
        controls,
        mut datas,
        driver,
    } = rest;
    let taken = places_left(alloc, controls, &mut datas);
    let_go(datas);
    let places = taken?;
    let left = pile(alloc, Places { places, driver })?;
    Ok(left)
}
