//! Commands begin.
ghost use Rattle.std.specs.Prelude.{◌≡◌, ◌+◌, ◌<◌, ◌∷◌, ◌++◌, [], None, Some, length, IfOk, OnOk, slice_get, option_copied, if◌then◌else◌};
ghost use Rattle.script_lang.specs.declared.command.Command as commands;
ghost use Rattle.run_book.specs.Begun as begun;
ghost use Rattle.run_book.specs.Begun.{Begins, Leaves};
ghost use Rattle.run_book.specs.Entries.{Keeps, SameRun, uses_context};
ghost use Rattle.run_book.specs.Notes.{tick_of};
ghost use Rattle.run_book.specs.declared.entry.State as states;

use crate::book::Book;
use crate::entry::{Answer, Entry, State, Waits};
use line_print::LineReply;
use node_link::Letter;
use run_facts::{Of, Post, Run};
use script_lang::Command;
use std::alloc::{AllocError, Global};

/// What a command comes to as it begins: how far it is, and the letters that are to be sent for it.
#[derive(Drop)]
pub(crate) struct Begun<W: Run> {
    pub(crate) state: State,
    pub(crate) posts: Vec<Post<Letter<Of<W>>>>,
}

impl<W: Run> Begun<W> {
    /// A command that has its answer at once, and sends these letters besides.
    pub(crate) fn telling(reply: LineReply, posts: Vec<Post<Letter<Of<W>>>>) -> Begun<W>
        ensures state { result.state ≡ begun.answered reply }
        ensures posts { result.posts ≡ posts }
    {
        Begun {
            state: State::Answered(Answer {
                reply,
                receipt: None,
                page: None,
            }),
            posts,
        }
    }

    /// A command that has its answer at once, and sends nothing.
    pub(crate) fn answered(alloc: Global, reply: LineReply) -> Begun<W>
        ensures state { result.state ≡ begun.answered reply }
        ensures posts { result.posts.items ≡ [] }
    {
        Begun::telling(reply, Vec::new(alloc))
    }

    /// A command that waits for what these letters bring.
    pub(crate) fn waiting(waits: Waits, posts: Vec<Post<Letter<Of<W>>>>) -> Begun<W>
        ensures state { result.state ≡ State.Waits waits }
        ensures posts { result.posts ≡ posts }
    {
        Begun {
            state: State::Waits(waits),
            posts,
        }
    }
}

/// Whether a command opens or uses a context.
fn uses_context(command: &Command) -> bool
    ensures { result ≡ uses_context command.now }
{
    match command {
        Command::Search { scroll, .. } => scroll.is_some(),
        Command::Scroll { .. } => true,
        _ => false,
    }
}

impl<'a, W: Run> Book<'a, W> {
    /// What a command comes to as it begins.
    fn begun(&mut self, number: u32, command: &Command) -> Result<Begun<W>, AllocError>
        requires keeps { Keeps W.cancels W.setting self.old }
        requires number { number ≡ length self.old.entries.items + 1 }
        requires there { slice_get self.old.script.now (length self.old.entries.items) ≡ Some command.now }
        ensures begins { IfOk result (λ b. Begins self.old number command.now b.state b.posts.items) }
        ensures contexts { OnOk result (Leaves self.old command.now self.new.contexts) }
        ensures clock { OnOk result (self.new.clock ≡ self.old.clock + tick_of command.now) }
        ensures run { SameRun self.old self.new }
        ensures entries { self.new.entries.items ≡ self.old.entries.items }
        ensures paging { self.new.paging.items ≡ self.old.paging.items }
    {
        match command {
            Command::Search {
                index,
                node,
                scroll,
                body,
                ..
            } => Ok(self.start_search(number, command, index, *node, *scroll, body)?),
            Command::Scroll { context, keep, .. } => {
                Ok(self.start_scroll(number, command, *context, *keep)?)
            }
            Command::Reindex {
                node,
                body,
                slices,
                rate,
                ..
            } => Ok(self.start_reindex(number, command, *node, body, *slices, *rate)?),
            Command::ClearScroll { context } => Ok(self.clear(*context)),
            Command::Tick { ms } => Ok(self.tick(*ms)?),
            Command::Cancel { target, wait, .. } => Ok(self.cancel(number, target, *wait)?),
            Command::ListTasks { .. } => Ok(self.list(number)?),
            _ => Ok(Begun::answered(self.alloc, LineReply::Answered)),
        }
    }

    /// The next command, where not all have begun.
    fn next(&self) -> Option<&'a Command>
        ensures { option_copied result ≡ slice_get self.now.script.now (length self.now.entries.items) }
    {
        self.script.get(self.entries.len())
    }

    /// The number of the next command.
    fn next_number(&self) -> u32
        requires { length self.now.entries.items < 65535 }
        ensures { result ≡ length self.now.entries.items + 1 }
    {
        self.entries.len() as u32 + 1
    }

    /// Notes a command that opens or uses a context.
    fn note_paging(&mut self, number: u32, command: &Command) -> Result<(), AllocError>
        ensures noted { OnOk result (self.new.paging.items ≡ (if uses_context command.now then self.old.paging.items ++ number ∷ [] else self.old.paging.items)) }
        ensures run { SameRun self.old self.new }
        ensures entries { self.new.entries.items ≡ self.old.entries.items }
        ensures contexts { self.new.contexts ≡ self.old.contexts }
        ensures clock { self.new.clock ≡ self.old.clock }
    {
        if uses_context(command) {
            self.paging.push(number)?;
        }
        Ok(())
    }

    /// A command has begun, and is so far.
    fn enter(&mut self, state: State) -> Result<(), AllocError>
        ensures entered { OnOk result (self.new.entries.items ≡ self.old.entries.items ++ record { root = None; state = state } ∷ []) }
        ensures run { SameRun self.old self.new }
        ensures paging { self.new.paging.items ≡ self.old.paging.items }
        ensures contexts { self.new.contexts ≡ self.old.contexts }
        ensures clock { self.new.clock ≡ self.old.clock }
    {
        self.entries.push(Entry { root: None, state })?;
        Ok(())
    }

    /// The next command begins, and gives the letters that are to be sent for it. There are none where all commands have begun. It fails
    /// only for want of memory.
    pub fn begin(&mut self) -> Result<Vec<Post<Letter<Of<W>>>>, AllocError>
        requires keeps { Keeps W.cancels W.setting self.old }
        ensures keeps { OnOk result (Keeps W.cancels W.setting self.new) }
        ensures same { SameRun self.old self.new }
        ensures begun { length self.old.entries.items < length self.old.script.now → OnOk result (length self.new.entries.items ≡ length self.old.entries.items + 1) }
        ensures all_begun { slice_get self.old.script.now (length self.old.entries.items) ≡ None → IfOk result (λ posts. posts.items ≡ []) }
        ensures next { (c : commands.Command) → slice_get self.old.script.now (length self.old.entries.items) ≡ Some c
            → IfOk result (λ posts. (state : states.State) × (self.new.entries.items ≡ self.old.entries.items ++ record { root = None; state = state } ∷ [])
            × Begins self.old (length self.old.entries.items + 1) c state posts.items) }
        ensures contexts { (c : commands.Command) → slice_get self.old.script.now (length self.old.entries.items) ≡ Some c → OnOk result (Leaves self.old c self.new.contexts) }
        ensures paging { (c : commands.Command) → slice_get self.old.script.now (length self.old.entries.items) ≡ Some c
            → OnOk result (self.new.paging.items ≡ (if uses_context c then self.old.paging.items ++ (length self.old.entries.items + 1) ∷ [] else self.old.paging.items)) }
    {
        let Some(command) = self.next() else {
            return Ok(Vec::new(self.alloc));
        };
        let number = self.next_number();
        let Begun { state, posts } = self.begun(number, command)?;
        self.note_paging(number, command)?;
        self.enter(state)?;
        Ok(posts)
    }
}
