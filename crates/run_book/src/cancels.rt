//! Cancels begin.
ghost use Rattle.std.specs.Prelude.{◌≡◌, IfOk};
ghost use Rattle.node_link.specs.declared.body.Body.TheVariants as says;
ghost use Rattle.run_facts.specs.Cancels.{cancels_of};
ghost use Rattle.run_book.specs.Begun as begun;
ghost use Rattle.run_book.specs.Begun.{IsOutcome, cancelled_task};
ghost use Rattle.run_book.specs.Entries.{root_of};
ghost use Rattle.run_book.specs.Posts.{to_each};
ghost use Rattle.script_lang.specs.declared.command.CancelTarget.TheVariants as targets;

use crate::begin::Begun;
use crate::book::Book;
use crate::entry::{Naming, Waits};
use crate::parts::Parts;
use crate::starts::one;
use line_print::LineReply;
use node_link::{Body, Letter};
use run_facts::{Of, Post, Run, To};
use script_lang::CancelTarget;
use std::alloc::AllocError;
use task_ids::TaskId;
use tasks_api::Filter;

impl<'a, W: Run> Book<'a, W> {
    /// A cancel of a task by its id begins. A node that is not of the cluster has no task.
    fn cancel_task(&self, cancel: u32, task: TaskId, wait: bool) -> Result<Begun<W>, AllocError>
        requires { cancels_of W.cancels cancel }
        ensures { IfOk result (λ b. IsOutcome (cancelled_task self.now.nodes cancel task wait) b.state b.posts.items) }
    {
        let alloc = self.alloc;
        if task.node < 1 || self.nodes < task.node {
            return Ok(Begun::answered(alloc, LineReply::NotFound(Some(task))));
        }
        let letter = Letter::new(Body::Cancel { cancel, task, wait });
        let to = To::Control(task.node);
        let posts = one(alloc, Post { to, letter })?;
        Ok(Begun::waiting(Waits::Cancel { task, wait }, posts))
    }

    /// The letters by which each data worker is to tell its tasks that a filter lets through.
    fn filter_posts(
        &self,
        cancel: u32,
        filter: &Filter,
        wait: bool,
    ) -> Result<Vec<Post<Letter<Of<W>>>>, AllocError>
        requires { cancels_of W.cancels cancel }
        ensures { IfOk result (λ posts. posts.items ≡ to_each self.now.nodes self.now.workers (says.CancelMatching cancel filter.now wait)) }
    {
        let mut posts = Vec::new(self.alloc);
        for to in self.data_workers()? {
            let filter = filter.copy()?;
            let letter = Letter::new(Body::CancelMatching {
                cancel,
                filter,
                wait,
            });
            posts.push(Post { to, letter })?;
        }
        Ok(posts)
    }

    /// A cancel by a filter begins.
    fn cancel_matching(
        &self,
        cancel: u32,
        filter: &Filter,
        wait: bool,
    ) -> Result<Begun<W>, AllocError>
        requires { cancels_of W.cancels cancel }
        ensures { IfOk result (λ b. IsOutcome (begun.cancelled self.now.nodes self.now.workers (root_of self.now.entries.items) cancel (targets.Matching filter.now) wait) b.state b.posts.items) }
    {
        let posts = self.filter_posts(cancel, filter, wait)?;
        let naming = Naming {
            wait,
            named: Parts::new(self.alloc, self.nodes)?,
            tasks: 0,
            done: 0,
            receipt: None,
        };
        Ok(Begun::waiting(Waits::Naming(naming), posts))
    }

    /// A cancel begins.
    pub(crate) fn cancel(
        &self,
        cancel: u32,
        target: &CancelTarget,
        wait: bool,
    ) -> Result<Begun<W>, AllocError>
        requires { cancels_of W.cancels cancel }
        ensures { IfOk result (λ b. IsOutcome (begun.cancelled self.now.nodes self.now.workers (root_of self.now.entries.items) cancel target.now wait) b.state b.posts.items) }
    {
        match target {
            CancelTarget::Task(task) => Ok(self.cancel_task(cancel, *task, wait)?),
            CancelTarget::Command(command) => match self.root_of(*command) {
                Some(task) => Ok(self.cancel_task(cancel, task, wait)?),
                None => Ok(Begun::answered(self.alloc, LineReply::NotFound(None))),
            },
            CancelTarget::Matching(filter) => Ok(self.cancel_matching(cancel, filter, wait)?),
        }
    }
}
