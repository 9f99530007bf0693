// The boards of a cluster.
ghost use Rattle.std.specs.Prelude.{◌≡◌, IfOk};
ghost use Rattle.task_ids.specs.Limits.{IsNode};
ghost use Rattle.run_facts.specs.Inboxes.{IsPoolSize};
ghost use Rattle.run_cluster.specs.Boards.{IsNewBoard, AreNewBoards};

use race_board::{BoardParts, ControlSeat, DataSeat, RaceBoard};
use std::alloc::{AllocError, Global};
use task_ids::{BoardName, Cluster};

/// For how many bans each board has room.
const BANS: u32 = 1024;

/// The seats of a node's board.
#[derive(Drop)]
pub(crate) struct Seats<N: BoardName> {
    pub(crate) control: ControlSeat<N>,
    /// By the numbers of the data workers.
    pub(crate) datas: Vec<DataSeat<N>>,
}

/// The boards of all nodes, and the seats of each.
#[derive(Drop)]
pub(crate) struct Boards<N: BoardName> {
    pub(crate) boards: Vec<RaceBoard<N>>,
    pub(crate) seats: Vec<Seats<N>>,
}

// A new board of a node, with so many data seats.
fn new_board<N: BoardName>(
    alloc: Global,
    cluster: &Cluster,
    workers: u32,
    node: u32,
) -> Result<(RaceBoard<N>, Seats<N>), AllocError>
    requires workers { IsPoolSize workers }
    requires node { IsNode node }
    ensures { IfOk result (λ r. IsNewBoard cluster.now.slots workers node r.0 r.1) }
{
    let BoardParts {
        board,
        control,
        seats,
    } = RaceBoard::<N>::new(alloc, node, cluster.slots, BANS, workers)?;
    let own = Seats {
        control,
        datas: seats,
    };
    Ok((board, own))
}

impl<N: BoardName> Boards<N> {
    /// New boards for the nodes of a cluster, each with the slots of the cluster, room for 1,024 bans and so many data seats. It fails only
    /// for want of memory.
    pub(crate) fn new(
        alloc: Global,
        cluster: &Cluster,
        workers: u32,
    ) -> Result<Boards<N>, AllocError>
        requires { IsPoolSize workers }
        ensures { IfOk result (λ all. AreNewBoards cluster.now workers all.boards.items all.seats.items) }
    {
        let mut all = Boards {
            boards: Vec::new(alloc),
            seats: Vec::new(alloc),
        };
        for before in 0..cluster.nodes {
            let (board, seats) = new_board::<N>(alloc, cluster, workers, before + 1)?;
            all.boards.push(board)?;
            all.seats.push(seats)?;
        }
        Ok(all)
    }
}
