//! Ticks.
ghost use Rattle.std.specs.Prelude.{◌≡◌, ◌+◌, ◌<◌, ◌^◌, IfOk, OnOk};
ghost use Rattle.std.specs.FinMap.{get};
ghost use Rattle.node_link.specs.declared.body.Body.TheVariants as says;
ghost use Rattle.node_link.specs.Lawful.{IsTick};
ghost use Rattle.task_events.specs.Contexts.{unexpired};
ghost use Rattle.task_ids.specs.declared.task_id.TaskId.{TaskId};
ghost use Rattle.run_book.specs.Begun.{answered};
ghost use Rattle.run_book.specs.Entries.{SameRun};
ghost use Rattle.run_book.specs.Posts.{to_each};

use crate::begin::Begun;
use crate::book::Book;
use line_print::LineReply;
use node_link::{Body, Letter};
use run_facts::{Of, Post, Run};
use std::alloc::AllocError;

impl<'a, W: Run> Book<'a, W> {
    /// The letters by which the clock of each data worker goes on.
    fn tick_posts(&self, ms: u64) -> Result<Vec<Post<Letter<Of<W>>>>, AllocError>
        requires { IsTick ms }
        ensures { IfOk result (λ posts. posts.items ≡ to_each self.now.nodes self.now.workers (says.Tick ms)) }
    {
        let mut posts = Vec::new(self.alloc);
        for to in self.data_workers()? {
            let letter = Letter::new(Body::Tick { ms });
            posts.push(Post { to, letter })?;
        }
        Ok(posts)
    }

    /// A tick begins, and has its answer: the clock goes on, and each context goes that was not used for its keep-alive.
    pub(crate) fn tick(&mut self, ms: u64) -> Result<Begun<W>, AllocError>
        requires ms { IsTick ms }
        requires clock { self.old.clock + ms < 2 ^ 64 }
        ensures state { IfOk result (λ b. b.state ≡ answered (LineReply.Now (self.old.clock + ms))) }
        ensures posts { IfOk result (λ b. b.posts.items ≡ to_each self.old.nodes self.old.workers (says.Tick ms)) }
        ensures clock { OnOk result (self.new.clock ≡ self.old.clock + ms) }
        ensures left { OnOk result ((id : TaskId) → get self.new.contexts.table id ≡ unexpired (self.old.clock + ms) (get self.old.contexts.table id)) }
        ensures openers { self.new.contexts.openers ≡ self.old.contexts.openers }
        ensures run { SameRun self.old self.new }
        ensures entries { self.new.entries.items ≡ self.old.entries.items }
        ensures paging { self.new.paging.items ≡ self.old.paging.items }
    {
        let posts = self.tick_posts(ms)?;
        self.clock += ms;
        let _ = self.contexts.table.expire(self.clock);
        Ok(Begun::telling(LineReply::Now(self.clock), posts))
    }
}
