//! The inboxes of a cluster.
ghost use Rattle.std.specs.Prelude.{◌≡◌, ℕ, Some};
ghost use Rattle.task_ids.specs.Limits.{IsNode};
ghost use Rattle.run_facts.specs.Inboxes.{IsPoolSize, control_of, driver_of, inbox_of};
ghost use Rattle.run_facts.specs.declared.To.{To};

use crate::To;

/// The number of the inbox of a node's control worker, which is the first of the node's, in a cluster whose nodes have so many data workers
/// each, from 1 to 4.
pub fn control_of(workers: u32, node: u32) -> u32
    requires workers { IsPoolSize workers }
    requires node { IsNode node }
    ensures { result ≡ control_of workers node }
{
    (workers + 1) * (node - 1)
}

/// The number of the driver's inbox, which is the last, in a cluster of so many nodes, from 1 to 15, with so many data workers each, from 1
/// to 4.
pub fn driver_of(workers: u32, nodes: u32) -> u32
    requires workers { IsPoolSize workers }
    requires nodes { IsNode nodes }
    ensures { result ≡ driver_of workers nodes }
{
    (workers + 1) * nodes
}

/// The number of an inbox among all of a cluster of so many nodes, from 1 to 15, with so many data workers each, from 1 to 4. The inboxes of
/// a node stand together, its control worker's first, and the driver's is the last. There is none for a node or a worker that the cluster
/// does not have.
pub fn inbox_of(nodes: u32, workers: u32, to: To) -> Option<u32>
    requires nodes { IsNode nodes }
    requires workers { IsPoolSize workers }
    ensures { result ≡ inbox_of nodes workers to }
{
    match to {
        To::Control(node) if 1 <= node && node <= nodes => Some(control_of(workers, node)),
        To::Data { node, worker } if 1 <= node && node <= nodes && worker < workers => {
            Some(control_of(workers, node) + 1 + worker)
        }
        To::Driver => Some(driver_of(workers, nodes)),
        _ => None,
    }
}

/// No two workers have one inbox, and none has the driver's: a law.
pub fn inboxes_are_apart()
    ensures { (nodes workers inbox : ℕ) (a b : To) → inbox_of nodes workers a ≡ Some inbox → inbox_of nodes workers b ≡ Some inbox → a ≡ b }
{}
