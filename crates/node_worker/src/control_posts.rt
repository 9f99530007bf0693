// The letters of a control worker, with their addresses, in a cluster of so many nodes with so many data workers each.
ghost use Rattle.std.specs.Prelude.{◌≡◌, ◌≤◌, filter_map, All, IfOk};
ghost use Rattle.task_ids.specs.Limits.{IsNode};
ghost use Rattle.run_facts.specs.Inboxes.{IsPoolSize};
ghost use Rattle.node_link.specs.declared.body.Body.{Body};
ghost use Rattle.node_link.specs.Lawful.{IsLawful};
ghost use Rattle.control_worker.specs.Lawful.{IsLawfulAct, IsLawfulCore};
ghost use Rattle.node_worker.specs.ControlPosts.{IsOfControl, is_own, to_control, to_driver, core_post, act_post, left_posts};

use crate::post::Post;
use cancel_core::Act;
use child_track::Receipt;
use control_worker::ControlAct;
use node_link::{Body, Letter, RunName};
use run_facts::{control_of, driver_of};
use std::alloc::{AllocError, Global};
use task_ids::TaskId;

// A letter for the control worker of a node. One for a node that is not of the cluster is passed over.
fn to_control<N: RunName>(workers: u32, nodes: u32, to: u32, body: Body) -> Option<Post<Letter<N>>>
    requires workers { IsPoolSize workers }
    requires nodes { IsNode nodes }
    requires lawful { IsNode to → IsLawful N.allowed body }
    requires asked { N.asks body }
    ensures { result ≡ to_control workers nodes to body }
{
    if !(1 <= to && to <= nodes) {
        return None;
    }
    Some(Post {
        to: control_of(workers, to),
        letter: Letter::new(body),
    })
}

// A letter for the driver.
pub(crate) fn to_driver<N: RunName>(workers: u32, nodes: u32, body: Body) -> Post<Letter<N>>
    requires workers { IsPoolSize workers }
    requires nodes { IsNode nodes }
    requires lawful { IsLawful N.allowed body }
    requires asked { N.asks body }
    ensures { result ≡ to_driver workers nodes body }
{
    Post {
        to: driver_of(workers, nodes),
        letter: Letter::new(body),
    }
}

// Whether the receipt is that of the task.
fn is_own(receipt: &Receipt, task: TaskId) -> bool
    ensures { result ≡ is_own receipt.now.task task }
{
    match receipt.task() {
        Some(own) => own == task,
        None => false,
    }
}

// The letter by which an act of the node's cancellations is done. An answer with the receipt of another task is passed over;
// no cancellation gives one.
fn core_post<N: RunName>(workers: u32, nodes: u32, node: u32, act: Act) -> Option<Post<Letter<N>>>
    requires workers { IsPoolSize workers }
    requires nodes { IsNode nodes }
    requires node { IsNode node }
    requires lawful { IsLawfulCore N.allowed act }
    requires asks { (b : Body) → IsOfControl b → N.asks b }
    ensures { result ≡ core_post workers nodes node act }
{
    match act {
        Act::SendBan { to, parent, cancel } => {
            to_control(workers, nodes, to, Body::Ban { parent, cancel, to })
        }
        Act::SendAck { to, parent } => to_control(
            workers,
            nodes,
            to,
            Body::Ack { parent, from: node },
        ),
        Act::SendUnban { to, parent } => to_control(workers, nodes, to, Body::Unban { parent, to }),
        Act::AnswerPlaced { cancel, task } => {
            Some(to_driver(workers, nodes, Body::AnswerPlaced { cancel, task }))
        }
        Act::AnswerDone {
            cancel,
            task,
            receipt,
        } => {
            if !is_own(&receipt, task) {
                return None;
            }
            Some(to_driver(
                workers,
                nodes,
                Body::AnswerDone {
                    cancel,
                    task,
                    receipt,
                },
            ))
        }
    }
}

// The letter by which an act is done.
fn act_post<N: RunName>(
    workers: u32,
    nodes: u32,
    node: u32,
    act: ControlAct,
) -> Option<Post<Letter<N>>>
    requires workers { IsPoolSize workers }
    requires nodes { IsNode nodes }
    requires node { IsNode node }
    requires lawful { IsLawfulAct N.allowed act }
    requires asks { (b : Body) → IsOfControl b → N.asks b }
    ensures { result ≡ act_post workers nodes node act }
{
    match act {
        ControlAct::Core(act) => core_post(workers, nodes, node, act),
        ControlAct::NotFound { cancel } => Some(to_driver(
            workers,
            nodes,
            Body::NotFound { cancel },
        )),
        ControlAct::Named {
            node: _,
            cancel,
            tasks,
        } => Some(to_driver(
            workers,
            nodes,
            Body::Named {
                node,
                cancel,
                tasks,
            },
        )),
    }
}

// The letters by which acts are done, in their order.
pub(crate) fn act_posts<N: RunName>(
    alloc: Global,
    workers: u32,
    nodes: u32,
    node: u32,
    acts: Vec<ControlAct>,
) -> Result<Vec<Post<Letter<N>>>, AllocError>
    requires workers { IsPoolSize workers }
    requires nodes { IsNode nodes }
    requires node { IsNode node }
    requires lawful { All (IsLawfulAct N.allowed) acts.items }
    requires asks { (b : Body) → IsOfControl b → N.asks b }
    ensures { IfOk result (λ posts. posts.items ≡ filter_map (act_post workers nodes node) acts.items) }
{
    let mut posts = Vec::new(alloc);
    for act in acts {
        if let Some(post) = act_post(workers, nodes, node, act) {
            posts.push(post)?;
        }
    }
    Ok(posts)
}

// The letters that tell each control worker of the cluster that this node's has left.
pub(crate) fn left_posts<N: RunName>(
    alloc: Global,
    workers: u32,
    nodes: u32,
    node: u32,
) -> Result<Vec<Post<Letter<N>>>, AllocError>
    requires workers { IsPoolSize workers }
    requires nodes { IsNode nodes }
    requires node { IsNode node }
    requires asks { (b : Body) → IsOfControl b → N.asks b }
    ensures { IfOk result (λ posts. posts.items ≡ left_posts workers node nodes) }
{
    let mut posts = Vec::new(alloc);
    for before in 0..nodes {
        posts.push(Post {
            to: control_of(workers, before + 1),
            letter: Letter::new(Body::ControlLeft { node }),
        })?;
    }
    Ok(posts)
}
