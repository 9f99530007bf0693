//! Lists of live tasks.
ghost use Rattle.std.specs.Prelude.{◌≡◌, ◌*◌, true, IfOk, OnOk};
ghost use Rattle.node_link.specs.declared.body.Body.TheVariants as says;
ghost use Rattle.node_link.specs.Lawful.{IsCommand};
ghost use Rattle.run_book.specs.Answering as answers;
ghost use Rattle.data_pool.specs.Gathered as gathered;
ghost use Rattle.data_pool.specs.Gathered.{answer_of, nothing_given, takes};
ghost use Rattle.run_book.specs.Listing.{goes_on, last_id, with_row, listed, part_of};
ghost use Rattle.run_book.specs.Posts.{to_each};
ghost use Rattle.run_facts.specs.Inboxes.{IsPoolSize};
ghost use Rattle.task_ids.specs.Limits.{IsNode};

use crate::begin::Begun;
use crate::book::Book;
use crate::entry::{Answer, State, Waits};
use data_pool::Gather;
use line_print::LineReply;
use node_link::{Body, Letter};
use run_facts::{Of, Post, Run};
use std::alloc::{AllocError, Global};
use task_ids::{Items, TaskId, TaskInfo};

impl<'a, W: Run> Book<'a, W> {
    /// The letters by which each data worker is to tell its live tasks.
    fn list_posts(&self, command: u32) -> Result<Vec<Post<Letter<Of<W>>>>, AllocError>
        requires { IsCommand command }
        ensures { IfOk result (λ posts. posts.items ≡ to_each self.now.nodes self.now.workers (says.List command)) }
    {
        let mut posts = Vec::new(self.alloc);
        for to in self.data_workers()? {
            let letter = Letter::new(Body::List { command });
            posts.push(Post { to, letter })?;
        }
        Ok(posts)
    }

    /// A list begins.
    pub(crate) fn list(&self, command: u32) -> Result<Begun<W>, AllocError>
        requires number { IsCommand command }
        requires nodes { IsNode self.now.nodes }
        requires workers { IsPoolSize self.now.workers }
        ensures state { IfOk result (λ b. b.state ≡ State.Waits (Waits.Rows (nothing_given (self.now.nodes * self.now.workers)) self.now.clock)) }
        ensures posts { IfOk result (λ b. b.posts.items ≡ to_each self.now.nodes self.now.workers (says.List command)) }
    {
        let posts = self.list_posts(command)?;
        let rows = Gather::new(self.alloc, self.nodes * self.workers)?;
        let now = self.clock;
        Ok(Begun::waiting(Waits::Rows { rows, now }, posts))
    }
}

/// Whether a row stands in a list at this moment after a row of this id.
fn goes_on(last: Option<TaskId>, now: u64, row: &TaskInfo) -> bool
    ensures { result ≡ goes_on last now row.now }
{
    if now < row.start_ms {
        return false;
    }
    match last {
        Some(last) => last < row.id,
        None => true,
    }
}

/// The id of the last row.
fn last_id(rows: &Items<TaskInfo>) -> Option<TaskId>
    ensures { result ≡ last_id rows.now }
{
    match rows.as_slice().last() {
        Some(last) => Some(last.id),
        None => None,
    }
}

/// Adds a row to a list of this moment, where it goes on with it.
fn add_row(all: &mut Items<TaskInfo>, now: u64, row: TaskInfo) -> Result<(), AllocError>
    ensures { OnOk result (all.new ≡ with_row now all.old row) }
{
    if goes_on(last_id(all), now, &row) {
        all.push(row)?;
    }
    Ok(())
}

/// What a list of this moment shows of these rows: each once, and none that starts after it. In a lawful run none is left out.
fn listed(alloc: Global, rows: Vec<TaskInfo>, now: u64) -> Result<Items<TaskInfo>, AllocError>
    ensures { IfOk result (λ all. all ≡ listed now rows.items) }
{
    let mut all = Items::new(alloc);
    for row in rows {
        add_row(&mut all, now, row)?;
    }
    Ok(all)
}

/// The number of a data worker among all data workers of so many nodes, each of which has so many. There is none of a worker that is not
/// one of them.
pub(crate) fn part_of(nodes: u32, workers: u32, node: u32, worker: u32) -> Option<u32>
    requires nodes { IsNode nodes }
    requires workers { IsPoolSize workers }
    ensures { result ≡ part_of nodes workers node worker }
{
    if 1 <= node && node <= nodes && worker < workers {
        Some((node - 1) * workers + worker)
    } else {
        None
    }
}

/// A list after a worker gave its part of it, which is one that it waits for.
fn with_part(
    alloc: Global,
    rows: Gather,
    now: u64,
    part: u32,
    told: Vec<TaskInfo>,
) -> Result<State, AllocError>
    requires { takes rows part ≡ true }
    ensures { IfOk result (λ state. state ≡ answers.list_by (gathered.with_part rows part told.items) now (answer_of (gathered.with_part rows part told.items))) }
{
    let mut rows = rows;
    match rows.part(part, told)? {
        Some(all) => Ok(State::Answered(Answer {
            reply: LineReply::Listed {
                rows: listed(alloc, all, now)?,
                now,
            },
            receipt: None,
            page: None,
        })),
        None => Ok(State::Waits(Waits::Rows { rows, now })),
    }
}

/// A list after the data worker of this number told its rows. A second part of one, and one of a worker that is not there, is passed over.
pub(crate) fn with_rows(
    alloc: Global,
    rows: Gather,
    now: u64,
    part: Option<u32>,
    told: Items<TaskInfo>,
) -> Result<State, AllocError>
    ensures { IfOk result (λ state. state ≡ answers.with_rows rows now part told) }
{
    match part {
        Some(part) if rows.takes(part) => Ok(with_part(alloc, rows, now, part, told.into_vec())?),
        _ => Ok(State::Waits(Waits::Rows { rows, now })),
    }
}
