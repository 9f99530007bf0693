// The workers of all nodes, before they run.
ghost use Rattle.std.specs.Prelude.{◌≡◌, ◌<◌, ◌+◌, ◌++◌, ◌∷◌, [], All, IfOk, OnOk, length};
ghost use Rattle.task_ids.specs.Limits.{IsNode};
ghost use Rattle.race_board.specs.Seats.{IsNew};
ghost use Rattle.run_facts.specs.Inboxes.{IsPoolSize, driver_of};
ghost use Rattle.run_inboxes.specs.Pairs.{Pairwise};
ghost use Rattle.run_threads.specs.Jobs.{lists_of};
ghost use Rattle.run_cluster.specs.Boards.{IsNewBoard, AreNewBoards};
ghost use Rattle.run_cluster.specs.Crews.{BeginsWith, IsControlOn, AreDatasOn, AreManned};

use crate::boards::Seats;
use crate::jobs::{Control, Data, Ground, Note};
use crate::places::{Piles, Place, Places, deal};
use es_io::Gate;
use node_link::RunName;
use node_worker::{Turns, Worker};
use race_board::{DataSeat, RaceBoard};
use run_facts::{Of, Run};
use run_inboxes::Ends;
use run_threads::Workers;
use std::alloc::{AllocError, Global};

/// The workers of a cluster.
pub(crate) type Crew<'b, W, G> = Workers<Of<W>, Control<'b, W, G>, Data<'b, W, G>>;

/// The data workers of a node.
type Datas<'b, W, G> = Vec<Worker<Of<W>, Data<'b, W, G>>>;

// Keeps the data workers of one node more.
fn keep<N: RunName, D: Turns<N> + Drop>(
    datas: &mut Vec<Vec<Worker<N, D>>>,
    own: Vec<Worker<N, D>>,
) -> Result<(), AllocError>
    ensures { OnOk result (datas.new.items ≡ datas.old.items ++ own ∷ []) }
{
    datas.push(own)?;
    Ok(())
}

// Lets workers go that are not to run.
fn let_go<N: RunName, C: Turns<N> + Drop, D: Turns<N> + Drop>(crew: Workers<N, C, D>) {
    drop(crew);
}

impl<'b, G: Gate> Ground<'b, G> {
    // The data workers of a node, over its new board, each with its seat and with its ends.
    fn datas<W: Run>(
        &self,
        alloc: Global,
        node: u32,
        board: &'b RaceBoard<Of<W>>,
        seats: Vec<DataSeat<Of<W>>>,
        ends: Vec<Ends<Note<W>>>,
    ) -> Result<Datas<'b, W, G>, AllocError>
        requires setting { (W.setting.corpus ≡ self.now.corpus.now) × (W.setting.shards ≡ self.now.cluster.shards) }
        requires workers { IsPoolSize self.now.workers }
        requires node { IsNode node }
        requires own { board.now.node ≡ node }
        requires new { All (IsNew board.now) seats.items }
        requires seats { length seats.items ≡ self.now.workers }
        requires ends { length ends.items ≡ self.now.workers }
        ensures new { IfOk result (λ datas. AreDatasOn self.now.cluster self.now.corpus.now self.now.workers board.now datas.items) }
        ensures ends { IfOk result (λ datas. Pairwise BeginsWith ends.items datas.items) }
    {
        let mut seats = seats;
        let mut datas = Vec::new(alloc);
        let mut worker = 0u32;
        seats.reverse();
        for own in ends {
            let seat = seats.pop().unwrap();
            datas.push(self.data(alloc, node, worker, board, seat, own)?)?;
            worker += 1;
        }
        Ok(datas)
    }

    // Adds the workers of one node more, over its new board with its seats, and with their ends.
    fn add<W: Run>(
        &self,
        alloc: Global,
        crew: &mut Crew<'b, W, G>,
        node: u32,
        board: &'b RaceBoard<Of<W>>,
        place: Place<Seats<Of<W>>, Ends<Note<W>>>,
    ) -> Result<(), AllocError>
        requires setting { (W.setting.corpus ≡ self.now.corpus.now) × (W.setting.shards ≡ self.now.cluster.shards) }
        requires workers { IsPoolSize self.now.workers }
        requires node { IsNode node }
        requires new { IsNewBoard self.now.cluster.slots self.now.workers node board.now place.board }
        requires wide { length place.datas.items ≡ self.now.workers }
        ensures control { OnOk result ((w : _) × (crew.new.controls.items ≡ crew.old.controls.items ++ w ∷ []) × IsControlOn self.now.cluster self.now.workers board.now w × BeginsWith place.control w) }
        ensures own { OnOk result ((ws : _) × (crew.new.datas.items ≡ crew.old.datas.items ++ ws ∷ []) × AreDatasOn self.now.cluster self.now.corpus.now self.now.workers board.now ws.items × Pairwise BeginsWith place.datas.items ws.items) }
        ensures driver { crew.new.driver ≡ crew.old.driver }
    {
        let Place {
            board: seats,
            control,
            datas,
        } = place;
        let control = self.control(alloc, node, board, seats.control, control)?;
        crew.controls.push(control)?;
        let datas = self.datas(alloc, node, board, seats.datas, datas)?;
        keep(&mut crew.datas, datas)?;
        Ok(())
    }

    /// The workers of all nodes, over these new boards with their seats, and with the ends of these inboxes.
    pub(crate) fn crew<W: Run>(
        &self,
        alloc: Global,
        boards: &'b [RaceBoard<Of<W>>],
        seats: Vec<Seats<Of<W>>>,
        ends: Vec<Ends<Note<W>>>,
    ) -> Result<Crew<'b, W, G>, AllocError>
        requires setting { (W.setting.corpus ≡ self.now.corpus.now) × (W.setting.shards ≡ self.now.cluster.shards) }
        requires workers { IsPoolSize self.now.workers }
        requires boards { AreNewBoards self.now.cluster self.now.workers boards.now seats.items }
        requires ends { length ends.items ≡ driver_of self.now.workers self.now.cluster.nodes + 1 }
        ensures controls { IfOk result (λ crew. Pairwise (IsControlOn self.now.cluster self.now.workers) boards.now crew.controls.items) }
        ensures datas { IfOk result (λ crew. Pairwise (AreDatasOn self.now.cluster self.now.corpus.now self.now.workers) boards.now (lists_of crew.datas.items)) }
        ensures manned { IfOk result (λ crew. AreManned self.now.workers seats.items ends.items crew.controls.items (lists_of crew.datas.items) crew.driver) }
    {
        let piles = Piles {
            boards: seats,
            inboxes: ends,
        };
        let Places { places, driver } = deal(alloc, piles, self.workers)?;
        let mut crew = Workers {
            controls: Vec::new(alloc),
            datas: Vec::new(alloc),
            driver,
        };
        let mut before = 0u32;
        for place in places {
            let board = &boards[before as usize];
            match self.add(alloc, &mut crew, before + 1, board, place) {
                Ok(()) => {}
                Err(error) => {
                    let_go(crew);
                    return Err(error);
                }
            }
            before += 1;
        }
        Ok(crew)
    }
}
