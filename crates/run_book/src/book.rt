//! The book.
ghost use Rattle.std.specs.Prelude.{◌≡◌, ℕ, ◌+◌, ◌-◌, ◌≤◌, [], length, IfSome, slice_get, option_and_then, option_copied, option_map};
ghost use Rattle.std.specs.Option.{option_map_or};
ghost use Rattle.line_print.specs.RunLines.{IsPrintable};
ghost use Rattle.run_facts.specs.Cancels.{cancels_of};
ghost use Rattle.run_facts.specs.Inboxes.{IsPoolSize};
ghost use Rattle.run_book.specs.Notes.{IsNoteAt};
ghost use Rattle.std.specs.FinMap.{empty};
ghost use Rattle.run_book.specs.Answering.{answer_in, without_answer};
ghost use Rattle.run_book.specs.Hearing.{with_state};
ghost use Rattle.run_book.specs.Entries.{CanDrive, Keeps, SameRun, SameTime, Turned, entry_of, is_answered, is_known_to, knows_root, needs_of, root_of};

use crate::contexts::Contexts;
use crate::entry::{Answer, Entry, LineNote, State};
use run_facts::Run;
use script_lang::{CancelTarget, Command};
use std::alloc::Global;
use std::collections::HashSet;
use std::marker::PhantomData;
use std::mem::replace;
use task_ids::{Cluster, TaskId};

/// What has to be known before a command begins.
#[derive(Clone, Copy, Debug, PartialEq, Eq)]
pub enum Needs {
    Nothing,
    /// The task that the command of this number started, or that it started none.
    Root(u32),
    /// The answer of the command of this number.
    Answer(u32),
    /// The answers of all earlier searches with a keep-alive and of all earlier scrolls.
    Pages,
}

/// What the driver of a run knows.
#[derive(Drop)]
pub struct Book<'a, W: Run> {
    pub(crate) alloc: Global,
    pub(crate) nodes: u32,
    /// How many data workers each node has.
    pub(crate) workers: u32,
    pub(crate) script: &'a [Command],
    /// The indices that there are.
    pub(crate) known: &'a HashSet<&'a str>,
    /// The commands that have begun, in order.
    pub(crate) entries: Vec<Entry>,
    /// Those of them that open or use a context, and that were not waited for.
    pub(crate) paging: Vec<u32>,
    /// The contexts of the script's searches.
    pub(crate) contexts: Contexts,
    /// The sum of the ticks so far, in milliseconds.
    pub(crate) clock: u64,
    pub(crate) of: PhantomData<W>,
}

/// The place of a command among all, from 0.
pub(crate) fn place_of(command: u32) -> usize
    ensures { result ≡ command - 1 }
{
    (command as usize).saturating_sub(1)
}

impl<'a, W: Run> Book<'a, W> {
    /// The book of a run in which no command has begun. Each node of its cluster has so many data workers, from 1 to 4.
    pub fn new(
        alloc: Global,
        cluster: &Cluster,
        workers: u32,
        script: &'a [Command],
        known: &'a HashSet<&'a str>,
    ) -> Book<'a, W>
        requires can { CanDrive W.cancels W.setting cluster.now.nodes script.now }
        requires workers { IsPoolSize workers }
        ensures keeps { Keeps W.cancels W.setting result }
        ensures is { (result.nodes ≡ cluster.now.nodes) × (result.workers ≡ workers) × (result.script.now ≡ script.now) × (result.known.now ≡ known.now) }
        ensures none { (result.entries.items ≡ []) × (result.paging.items ≡ []) × (result.contexts ≡ record { table = empty; openers = empty }) × (result.clock ≡ 0) }
    {
        Book {
            alloc,
            nodes: cluster.nodes,
            workers,
            script,
            known,
            entries: Vec::new(alloc),
            paging: Vec::new(alloc),
            contexts: Contexts::new(alloc),
            clock: 0,
            of: PhantomData,
        }
    }

    /// What has to be known before the next command begins.
    pub fn needs(&self) -> Needs
        ensures { result ≡ option_map_or needs_of (slice_get self.now.script.now (length self.now.entries.items)) Needs.Nothing }
    {
        let Some(command) = self.script.get(self.entries.len()) else {
            return Needs::Nothing;
        };
        match command {
            Command::Scroll { .. } | Command::ClearScroll { .. } | Command::Tick { .. } => {
                Needs::Pages
            }
            Command::Cancel {
                target: CancelTarget::Command(command),
                ..
            } => Needs::Root(*command),
            Command::WaitFor { command } => Needs::Answer(*command),
            _ => Needs::Nothing,
        }
    }

    /// The commands that open or use a context and that were not waited for. It leaves none.
    pub fn take_paging(&mut self) -> Vec<u32>
        requires keeps { Keeps W.cancels W.setting self.old }
        ensures keeps { Keeps W.cancels W.setting self.new }
        ensures same { SameRun self.old self.new }
        ensures begun { length self.new.entries.items ≡ length self.old.entries.items }
        ensures entries { self.new.entries.items ≡ self.old.entries.items }
        ensures others { (self.new.contexts ≡ self.old.contexts) × (self.new.clock ≡ self.old.clock) }
        ensures taken { (result.items ≡ self.old.paging.items) × (self.new.paging.items ≡ []) }
    {
        replace(&mut self.paging, Vec::new(self.alloc))
    }

    /// The command of a number, where it has begun.
    pub(crate) fn entry(&self, command: u32) -> Option<&Entry>
        ensures { option_copied result ≡ entry_of self.now.entries.items command }
    {
        self.entries.get(place_of(command))
    }

    /// The task that a command started, where it started one and that is known.
    pub(crate) fn root_of(&self, command: u32) -> Option<TaskId>
        ensures { result ≡ root_of self.now.entries.items command }
    {
        self.entry(command)?.root
    }

    /// Whether the command of this number has its answer.
    pub fn is_answered(&self, command: u32) -> bool
        ensures { result ≡ is_answered self.now.entries.items command }
    {
        match self.entry(command) {
            Some(entry) => !matches!(entry.state, State::Waits(_)),
            None => false,
        }
    }

    /// Whether it is known which task the command of this number started, or that it started none.
    pub fn knows_root(&self, command: u32) -> bool
        ensures { result ≡ knows_root self.now.entries.items command }
    {
        self.root_of(command).is_some() || self.is_answered(command)
    }

    /// Takes the answer of a command, once it has one.
    pub fn take_note(&mut self, command: u32) -> Option<LineNote>
        requires keeps { Keeps W.cancels W.setting self.old }
        requires number { 1 ≤ command }
        ensures keeps { Keeps W.cancels W.setting self.new }
        ensures same { SameRun self.old self.new }
        ensures begun { length self.new.entries.items ≡ length self.old.entries.items }
        ensures note { IfSome result (λ note. (place : ℕ) → place + 1 ≡ command → IsNoteAt (cancels_of W.cancels) W.setting (is_known_to self.old) self.old.script.now place note) }
        ensures printable { IfSome result (λ note. IsPrintable note.reply) }
        ensures taken { result ≡ option_map (λ a. record { command = command; reply = a.reply; receipt = a.receipt; page = a.page }) (option_and_then (λ e. answer_in e.state) (entry_of self.old.entries.items command)) }
        ensures told { Turned (with_state without_answer) (command - 1) self.old.entries.items self.new.entries.items }
        ensures time { SameTime self.old self.new }
        ensures contexts { self.new.contexts ≡ self.old.contexts }
    {
        let Answer {
            reply,
            receipt,
            page,
        } = self.take_answer(command)?;
        Some(LineNote {
            command,
            reply,
            receipt,
            page,
        })
    }

    /// Takes the answer of a command out of its entry.
    fn take_answer(&mut self, command: u32) -> Option<Answer>
        ensures answer { result ≡ option_and_then (λ e. answer_in e.state) (entry_of self.old.entries.items command) }
        ensures told { Turned (with_state without_answer) (command - 1) self.old.entries.items self.new.entries.items }
        ensures same { SameTime self.old self.new }
        ensures contexts { self.new.contexts ≡ self.old.contexts }
        ensures begun { length self.new.entries.items ≡ length self.old.entries.items }
    {
        let entry = self.entries.get_mut(place_of(command))?;
        let Taken { answer, state } = split_answer(replace(&mut entry.state, State::Told));
        entry.state = state;
        answer
    }
}

/// An answer that was taken out of a state, and the state without it.
#[derive(Drop)]
struct Taken {
    answer: Option<Answer>,
    state: State,
}

/// Takes the answer out of a state.
fn split_answer(state: State) -> Taken
    ensures answer { result.answer ≡ answer_in state }
    ensures state { result.state ≡ without_answer state }
{
    match state {
        State::Answered(answer) => Taken {
            answer: Some(answer),
            state: State::Told,
        },
        other => Taken {
            answer: None,
            state: other,
        },
    }
}
