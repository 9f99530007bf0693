// The end of all inboxes.
ghost use Rattle.std.specs.Prelude.{◌≡◌, length, map, IfOk};
ghost use Rattle.node_link.specs.Inbox.{LeftBy};
ghost use Rattle.run_inboxes.specs.Pairs.{Pairwise, Threewise};
ghost use Rattle.run_inboxes.specs.Ends.{AreLinked};
ghost use Rattle.run_inboxes.specs.Closed.{AllLeft, MayFinish, IsFinished, AreClosed};

use crate::ends::Ends;
use crate::transpose::turned;
use node_link::{Receiver, Sender, SenderEnd, Tally};
use std::alloc::{AllocError, Global};
use std::sync::Wait;

// What these senders leave.
fn ended<L: Drop>(alloc: Global, senders: Vec<Sender<L>>) -> Result<Vec<SenderEnd<L>>, AllocError>
    ensures { IfOk result (λ ends. Pairwise LeftBy senders.items ends.items) }
{
    let mut ends = Vec::new(alloc);
    for sender in senders {
        ends.push(sender.end())?;
    }
    Ok(ends)
}

// The inboxes, and what the senders of each who had ends left.
struct Taken<L: Drop> {
    inboxes: Vec<Receiver<L>>,
    rows: Vec<Vec<SenderEnd<L>>>,
}

// All ends, taken apart.
fn taken_apart<L: Drop>(alloc: Global, all: Vec<Ends<L>>) -> Result<Taken<L>, AllocError>
    ensures inboxes { IfOk result (λ taken. taken.inboxes.items ≡ map (λ e. e.inbox) all.items) }
    ensures rows { IfOk result (λ taken. Pairwise AllLeft all.items taken.rows.items) }
{
    let mut inboxes = Vec::new(alloc);
    let mut rows = Vec::new(alloc);
    for ends in all {
        let Ends { inbox, senders } = ends;
        inboxes.push(inbox)?;
        rows.push(ended(alloc, senders)?)?;
    }
    Ok(Taken { inboxes, rows })
}

// Closes each inbox with what its senders left.
fn finished<L: Drop, R: Wait>(
    rt: &R,
    alloc: Global,
    inboxes: Vec<Receiver<L>>,
    columns: Vec<Vec<SenderEnd<L>>>,
) -> Result<Vec<Tally>, AllocError>
    requires { Pairwise MayFinish inboxes.items columns.items }
    ensures { IfOk result (λ tallies. Threewise IsFinished inboxes.items columns.items tallies.items) }
{
    let mut columns = columns;
    let mut tallies = Vec::new(alloc);
    columns.reverse();
    for inbox in inboxes {
        let ends = columns.pop().unwrap();
        tallies.push(inbox.finish(rt, ends))?;
    }
    Ok(tallies)
}

/// Closes all inboxes of a cluster, once nobody sends or takes any more: what each took is compared with what was sent there, and what was
/// sent and taken is told for each, by their numbers. What an inbox took of each sender is a beginning of what that sender sent, in its order, and
/// where as much was taken as was sent, it is all of it. It fails only for want of memory.
pub fn close_all<L: Drop, R: Wait>(
    rt: &R,
    alloc: Global,
    all: Vec<Ends<L>>,
) -> Result<Vec<Tally>, AllocError>
    requires linked { AreLinked all.items }
    ensures { IfOk result (λ tallies. AreClosed all.items tallies.items) }
{
    let count = all.len();
    let Taken { inboxes, rows } = taken_apart(alloc, all)?;
    let columns = turned(alloc, count, rows)?;
    let tallies = finished(rt, alloc, inboxes, columns)?;
    Ok(tallies)
}
