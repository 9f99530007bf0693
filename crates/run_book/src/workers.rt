//! The data workers of a run.
ghost use Rattle.std.specs.Prelude.{◌≡◌, ◌++◌, IfOk, OnOk};
ghost use Rattle.node_link.specs.declared.body.Body.TheVariants as says;
ghost use Rattle.run_book.specs.Entries.{Keeps};
ghost use Rattle.run_book.specs.Posts.{data_workers, to_each, workers_on};
ghost use Rattle.run_facts.specs.Inboxes.{inbox_of};

use crate::book::Book;
use node_link::{Body, Letter};
use run_facts::{Of, Post, Run, To, inbox_of};
use std::alloc::{AllocError, Global};

/// Adds the data workers of a node.
fn add_workers(all: &mut Vec<To>, node: u32, workers: u32) -> Result<(), AllocError>
    ensures { OnOk result (all.new.items ≡ all.old.items ++ workers_on node workers) }
{
    for worker in 0..workers {
        all.push(To::Data { node, worker })?;
    }
    Ok(())
}

/// The data workers of so many nodes, each of which has so many: those of the first node first, and of each node from its worker 0.
fn data_workers(alloc: Global, nodes: u32, workers: u32) -> Result<Vec<To>, AllocError>
    ensures { IfOk result (λ all. all.items ≡ data_workers nodes workers) }
{
    let mut all = Vec::new(alloc);
    for before in 0..nodes {
        add_workers(&mut all, before + 1, workers)?;
    }
    Ok(all)
}

impl<'a, W: Run> Book<'a, W> {
    /// The data workers of its run.
    pub(crate) fn data_workers(&self) -> Result<Vec<To>, AllocError>
        ensures { IfOk result (λ all. all.items ≡ data_workers self.now.nodes self.now.workers) }
    {
        Ok(data_workers(self.alloc, self.nodes, self.workers)?)
    }

    /// The number of an inbox among all of its run. There is none for a node or a worker that the cluster does not have.
    pub fn inbox_of(&self, to: To) -> Option<u32>
        requires keeps { Keeps W.cancels W.setting self.now }
        ensures { result ≡ inbox_of self.now.nodes self.now.workers to }
    {
        inbox_of(self.nodes, self.workers, to)
    }

    /// The letters by which each data worker is to know that every due moment is past. It fails only for want of memory.
    pub fn drain(&self) -> Result<Vec<Post<Letter<Of<W>>>>, AllocError>
        ensures { IfOk result (λ posts. posts.items ≡ to_each self.now.nodes self.now.workers says.Drain) }
    {
        let mut posts = Vec::new(self.alloc);
        for to in self.data_workers()? {
            let letter = Letter::new(Body::Drain);
            posts.push(Post { to, letter })?;
        }
        Ok(posts)
    }
}
