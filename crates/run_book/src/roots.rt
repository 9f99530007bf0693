//! The answers of roots.
ghost use Rattle.std.specs.Prelude.{◌≡◌, ◌↔◌, ◌-◌, length, IfSome, IsTrue, OnOk};
ghost use Rattle.node_link.specs.Lawful.{IsLawfulRootAnswer};
ghost use Rattle.reply_facts.specs.Letters.{IsAnswerAt};
ghost use Rattle.run_facts.specs.Cancels.{cancels_of};
ghost use Rattle.run_book.specs.Answering as answers;
ghost use Rattle.run_book.specs.Answering.{IsAnswerTo, IsFor, IsPageSent, IsToState, page_noted, page_used, searched};
ghost use Rattle.run_book.specs.Contexts.{AreOpened, MayOpen, opening};
ghost use Rattle.run_book.specs.Entries.{Keeps, SameTime, Turned, entry_of};
ghost use Rattle.run_book.specs.Hearing.{EndsRoot, HearsRoot, IsAwaitedBy, by_entry, with_state};

use crate::book::{Book, place_of};
use crate::entry::{Answer, PageNote, RootAsk, SentPage, State, Waits};
use line_print::LineReply;
use node_link::{Page, RootAnswered};
use run_facts::Run;
use std::alloc::AllocError;
use std::mem::replace;
use task_events::{AnsweredRequest, Reply, ScrollAsk, is_same_cursor};
use task_ids::Boxed;

/// The command whose search a root looks through: the one that opened the context of its page, or its own.
fn searched(command: u32, asked: &RootAsk) -> u32
    ensures { result ≡ searched command asked.now }
{
    match asked {
        RootAsk::Page(sent) => sent.page.search,
        _ => command,
    }
}

/// Whether an answer shows the page that was sent, where it tells one.
fn shows(sent: &SentPage, page: &Option<Boxed<Page>>) -> bool
    ensures { IsTrue result ↔ IfSome page.now (λ p. p.after ≡ sent.now.page.after) }
{
    match page {
        Some(page) => is_same_cursor(&page.get().after, &sent.page.after),
        None => true,
    }
}

/// Whether a request is for the page that was sent.
fn is_page_sent(sent: &SentPage, ask: &ScrollAsk, page: &Option<Boxed<Page>>) -> bool
    ensures { IsTrue result ↔ IsPageSent sent.now ask.now page.now }
{
    ask.id == sent.ask.id && shows(sent, page)
}

/// Whether an answer is to a request of this kind, and to the page that was sent.
fn is_for(asked: &RootAsk, answered: &RootAnswered) -> bool
    ensures { IsTrue result ↔ IsFor asked.now answered.now.request answered.now.page }
{
    match (asked, &answered.request) {
        (RootAsk::Search, AnsweredRequest::Search(_)) => true,
        (RootAsk::Reindex, AnsweredRequest::Reindex(_)) => true,
        (RootAsk::Page(sent), AnsweredRequest::Scroll(ask)) => {
            is_page_sent(sent, ask.get(), &answered.page)
        }
        _ => false,
    }
}

/// Whether an answer is to what the root of its command was asked for.
fn is_answer_to(asked: &RootAsk, answered: &RootAnswered) -> bool
    ensures { IsTrue result ↔ IsAnswerTo asked.now answered.now }
{
    answered.place.search == searched(answered.place.command, asked) && is_for(asked, answered)
}

/// Whether a command waits for this answer of its root.
fn is_to_state(state: &State, answered: &RootAnswered) -> bool
    ensures { IsTrue result ↔ IsToState state.now answered.now }
{
    match state {
        State::Waits(Waits::Root(asked)) => is_answer_to(asked, answered),
        _ => false,
    }
}

/// The page that a root was sent, if it was sent one.
fn page_noted(asked: RootAsk) -> Option<PageNote>
    ensures { result ≡ page_noted asked }
{
    match asked {
        RootAsk::Page(SentPage { ask: _, page }) => Some(page),
        _ => None,
    }
}

/// A command after its root has ended, or was rejected.
fn after_root(state: State, reply: Reply) -> State
    ensures { result ≡ answers.after_root reply state }
{
    match state {
        State::Waits(Waits::Root(asked)) => State::Answered(Answer {
            reply: LineReply::Task(reply),
            receipt: None,
            page: page_noted(asked),
        }),
        other => other,
    }
}

/// The ask by which a root uses a context, if it was sent a page.
fn page_used(asked: &RootAsk) -> Option<ScrollAsk>
    ensures { result ≡ page_used asked.now }
{
    match asked {
        RootAsk::Page(sent) => Some(sent.ask),
        _ => None,
    }
}

/// Of a command that waits for the end of its root, the ask by which that uses a context, if it uses one.
fn root_awaited(state: &State) -> Option<Option<ScrollAsk>>
    ensures { result ≡ answers.root_awaited state.now }
{
    match state {
        State::Waits(Waits::Root(asked)) => Some(page_used(asked)),
        _ => None,
    }
}

impl<'a, W: Run> Book<'a, W> {
    /// Whether its command waits for this answer.
    fn awaits(&self, answered: &RootAnswered) -> bool
        ensures { IsTrue result ↔ IsAwaitedBy (entry_of self.now.entries.items answered.now.place.command) answered.now }
    {
        match self.entry(answered.place.command) {
            Some(entry) => is_to_state(&entry.state, answered),
            None => false,
        }
    }

    /// What the end of a root means for contexts: one that was sent a page gives its context back, and a search opens its own.
    fn note_end(&mut self, answered: &RootAnswered) -> Result<(), AllocError>
        requires opened { AreOpened W.setting self.old.contexts }
        requires may { MayOpen W.setting answered.now.place.command (opening answered.now.request answered.now.reply) }
        ensures contexts { OnOk result (by_entry (entry_of self.old.entries.items answered.now.place.command) self.old.contexts self.old.clock answered.now self.new.contexts) }
        ensures opened { OnOk result (AreOpened W.setting self.new.contexts) }
        ensures entries { self.new.entries.items ≡ self.old.entries.items }
        ensures same { SameTime self.old self.new }
    {
        let command = answered.place.command;
        let Some(entry) = self.entry(command) else {
            return Ok(());
        };
        match root_awaited(&entry.state) {
            Some(Some(ask)) => Ok(self.turn_page(ask, &answered.reply)?),
            Some(None) => Ok(self.open(command, &answered.request, &answered.reply)?),
            None => Ok(()),
        }
    }

    /// A command has the answer of its root.
    fn end_root(&mut self, command: u32, reply: Reply)
        ensures told { Turned (with_state (answers.after_root reply)) (command - 1) self.old.entries.items self.new.entries.items }
        ensures contexts { self.new.contexts ≡ self.old.contexts }
        ensures same { SameTime self.old self.new }
        ensures begun { length self.new.entries.items ≡ length self.old.entries.items }
    {
        if let Some(entry) = self.entries.get_mut(place_of(command)) {
            let state = replace(&mut entry.state, State::Told);
            entry.state = after_root(state, reply);
        }
    }

    /// A command's root has ended, or was rejected. An answer for which its command doesn't wait is passed over.
    pub(crate) fn hear_root_answer(&mut self, answered: RootAnswered) -> Result<(), AllocError>
        requires lawful { IsLawfulRootAnswer (cancels_of W.cancels) answered }
        requires tells { IsAnswerAt W.setting answered.place answered.request answered.page answered.reply }
        requires keeps { Keeps W.cancels W.setting self.old }
        ensures keeps { OnOk result (Keeps W.cancels W.setting self.new) }
        ensures told { OnOk result (HearsRoot answered self.old.entries.items self.new.entries.items) }
        ensures contexts { OnOk result (EndsRoot answered self.old self.new.contexts) }
        ensures same { SameTime self.old self.new }
        ensures begun { length self.new.entries.items ≡ length self.old.entries.items }
    {
        if !self.awaits(&answered) {
            return Ok(());
        }
        self.note_end(&answered)?;
        self.end_root(answered.place.command, answered.reply);
        Ok(())
    }
}
