// What the workers of each node get, and what they leave.
ghost use Rattle.std.specs.Prelude.{◌≡◌, ◌≤◌, ◌+◌, ◌∷◌, ◌++◌, IfOk, length, reverse};
ghost use Rattle.run_facts.specs.Inboxes.{driver_of};
ghost use Rattle.run_cluster.specs.Places.{AreDealt, AreWide};

use std::alloc::{AllocError, Global};

/// What belongs to a node: what is of its board, and of each of its workers what is of its inbox.
#[derive(Drop)]
pub(crate) struct Place<S, E> {
    pub(crate) board: S,
    pub(crate) control: E,
    /// By the numbers of its data workers.
    pub(crate) datas: Vec<E>,
}

/// What belongs to each node, and to the driver.
#[derive(Drop)]
pub(crate) struct Places<S, E> {
    pub(crate) places: Vec<Place<S, E>>,
    pub(crate) driver: E,
}

/// The same in two piles: what is of the boards, by their nodes, and what is of the inboxes, by their numbers.
#[derive(Drop)]
pub(crate) struct Piles<S, E> {
    pub(crate) boards: Vec<S>,
    pub(crate) inboxes: Vec<E>,
}

// Takes so many things off the end of a pile, the last first.
fn take_off<E: Drop>(alloc: Global, pile: &mut Vec<E>, count: u32) -> Result<Vec<E>, AllocError>
    requires { count ≤ length pile.old.items }
    ensures count { IfOk result (λ taken. length taken.items ≡ count) }
    ensures pile { IfOk result (λ taken. reverse pile.old.items ≡ taken.items ++ reverse pile.new.items) }
{
    let mut taken = Vec::new(alloc);
    for _ in 0..count {
        let own = pile.pop().unwrap();
        taken.push(own)?;
    }
    Ok(taken)
}

// What belongs to one node: what is of its board, and from the end of the pile of inboxes what is of its own.
fn deal_one<S: Drop, E: Drop>(
    alloc: Global,
    board: S,
    inboxes: &mut Vec<E>,
    workers: u32,
) -> Result<Place<S, E>, AllocError>
    requires { workers + 1 ≤ length inboxes.old.items }
    ensures board { IfOk result (λ place. place.board ≡ board) }
    ensures wide { IfOk result (λ place. length place.datas.items ≡ workers) }
    ensures inboxes { IfOk result (λ place. reverse inboxes.old.items ≡ place.control ∷ place.datas.items ++ reverse inboxes.new.items) }
{
    let control = inboxes.pop().unwrap();
    let datas = take_off(alloc, inboxes, workers)?;
    Ok(Place {
        board,
        control,
        datas,
    })
}

/// Deals what is of all boards and all inboxes to the nodes, each with so many data workers, and to the driver. It fails only for want of
/// memory.
pub(crate) fn deal<S: Drop, E: Drop>(
    alloc: Global,
    piles: Piles<S, E>,
    workers: u32,
) -> Result<Places<S, E>, AllocError>
    requires { length piles.inboxes.items ≡ driver_of workers (length piles.boards.items) + 1 }
    ensures dealt { IfOk result (λ all. AreDealt piles.boards.items piles.inboxes.items all.places.items all.driver) }
    ensures wide { IfOk result (λ all. AreWide workers all.places.items) }
{
    let Piles {
        boards,
        mut inboxes,
    } = piles;
    let mut places = Vec::new(alloc);
    inboxes.reverse();
    for board in boards {
        places.push(deal_one(alloc, board, &mut inboxes, workers)?)?;
    }
    let driver = inboxes.pop().unwrap();
    Ok(Places { places, driver })
}

/// Puts what was dealt into piles again. It fails only for want of memory.
pub(crate) fn pile<S: Drop, E: Drop>(
    alloc: Global,
    dealt: Places<S, E>,
) -> Result<Piles<S, E>, AllocError>
    ensures { IfOk result (λ piles. AreDealt piles.boards.items piles.inboxes.items dealt.places.items dealt.driver) }
{
    let Places { places, driver } = dealt;
    let mut boards = Vec::new(alloc);
    let mut inboxes = Vec::new(alloc);
    for place in places {
        let Place {
            board,
            control,
            mut datas,
        } = place;
        boards.push(board)?;
        inboxes.push(control)?;
        inboxes.append(&mut datas)?;
    }
    inboxes.push(driver)?;
    Ok(Piles { boards, inboxes })
}
