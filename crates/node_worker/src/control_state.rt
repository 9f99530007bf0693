// What a control worker has.
ghost use Rattle.task_ids.specs.Limits.{IsNode};

use crate::left::Left;
use control_worker::ControlCore;
use node_boards::ControlBoard;
use node_link::RunName;
use std::alloc::Global;
use std::marker::PhantomData;

// How many nodes a cluster has.
#[derive(Clone, Copy)]
pub(crate) struct Cluster {
    pub(crate) nodes: u32,
    ghost in_range: { IsNode nodes },
}

// A control worker's core, its seat of the node's board, and which workers have left, in a cluster.
#[derive(Drop)]
pub(crate) struct ControlState<N: RunName, B: ControlBoard<N>> {
    pub(crate) alloc: Global,
    pub(crate) cluster: Cluster,
    pub(crate) core: ControlCore,
    pub(crate) board: B,
    pub(crate) left: Left,
    pub(crate) of: PhantomData<N>,
}
