//! Scrolls begin and end, and contexts open and go.
ghost use Rattle.std.specs.Prelude.{◌≡◌, ◌↔◌, [], None, Some, IfOk, IfSome, IsSome, OnOk};
ghost use Rattle.node_link.specs.Lawful.{IsCommand};
ghost use Rattle.std.specs.FinMap.{get};
ghost use Rattle.scroll_table.specs.Contexts.{answer_for};
ghost use Rattle.task_events.specs.Counts.{AreCounts};
ghost use Rattle.run_book.specs.Begun as begun;
ghost use Rattle.run_book.specs.Begun.{IsOutcome, context_in, frees, opener_in, page_at, scrolled_if, sent};
ghost use Rattle.run_book.specs.Contexts as contexts;
ghost use Rattle.run_book.specs.Contexts.{AreOpened, MayOpen, Opens, after_page, cursor_of, opening, turned_by};
ghost use Rattle.run_book.specs.Entries.{SameTime};

use crate::begin::Begun;
use crate::book::Book;
use crate::entry::{PageNote, RootAsk, SentPage};
use crate::starts::{Root, started};
use line_print::LineReply;
use node_link::Page;
use run_facts::Run;
use script_lang::{Command, ContextTarget};
use scroll_table::ScrollTable;
use shared_value::Shared;
use std::alloc::{AllocError, Global};
use task_events::{
    AnsweredRequest, Context, HitKey, Reply, Request, ScrollAsk, SearchAsk, SearchReply,
    ShardCounts, copy_key,
};
use task_ids::{Boxed, TaskId};

/// The last row that a reply shows, where it is a good one and shows one.
fn cursor_of(reply: &Reply) -> Result<Option<HitKey>, AllocError>
    ensures { IfOk result (λ cursor. cursor ≡ cursor_of reply.now) }
{
    match reply {
        Reply::Search(reply) => Ok(copy_key(&reply.get().last)?),
        _ => Ok(None),
    }
}

/// The context that a search opens with its answer at this moment. It is none where the shards of the answer are not in order, which
/// no worker tells.
fn opened(
    alloc: Global,
    id: TaskId,
    ask: &Shared<SearchAsk>,
    reply: &SearchReply,
    now: u64,
) -> Result<Option<Context>, AllocError>
    ensures some { IfOk result (λ found. IfSome found (λ c. c ≡ contexts.opened id ask.now reply.now now)) }
    ensures counts { IfOk result (λ found. IsSome found ↔ AreCounts reply.now.shards) }
{
    let counts = Vec::from_slice(alloc, reply.shards.as_slice())?;
    let Ok(shards) = ShardCounts::new(counts) else {
        return Ok(None);
    };
    Ok(Some(Context {
        id,
        ask: ask.copy()?,
        shards,
        after: copy_key(&reply.last)?,
        keep_ms: ask.get().scroll,
        last_ms: now,
        owner: None,
        busy: None,
    }))
}

/// The root of a scroll takes its context at this moment, where it may, and gives it back with another cursor, where one is given.
fn use_once(contexts: &mut ScrollTable, ask: ScrollAsk, cursor: Option<HitKey>, now: u64)
    ensures { contexts.new ≡ turned_by (answer_for None now (get contexts.old ask.id)) contexts.old ask cursor now }
{
    if contexts.page(ask.id, None, now, ask.keep, ask.id).is_ok() {
        contexts.give_back(ask.id, cursor, now);
    }
}

impl<'a, W: Run> Book<'a, W> {
    /// The context that a command is about, by the id of the search that opened it, unless the command that it names started none.
    fn context_named(&self, context: ContextTarget) -> Option<TaskId>
        ensures { result ≡ context_in self.now context }
    {
        match context {
            ContextTarget::Id(id) => Some(id),
            ContextTarget::Command(command) => self.root_of(command),
        }
    }

    /// The page at which a context stands, where it may be used now.
    fn page_of(&self, id: TaskId) -> Result<Option<Page>, AllocError>
        ensures { IfOk result (λ page. page ≡ page_at self.now id) }
    {
        match self.contexts.table.peek(id, None, self.clock) {
            Ok(context) => Ok(Some(Page::of(context)?)),
            Err(_) => Ok(None),
        }
    }

    /// The command whose search opened a context, or this one where none did.
    fn opener_of(&self, id: TaskId, number: u32) -> u32
        ensures { result ≡ opener_in self.now number id }
    {
        self.contexts.openers.of(id).unwrap_or(number)
    }

    /// The root of a scroll, which takes along this page of a search.
    fn page_root(&self, ask: ScrollAsk, search: u32, page: Page) -> Result<Root, AllocError>
        ensures search { IfOk result (λ root. root.search ≡ search) }
        ensures asked { IfOk result (λ root. root.asked ≡ RootAsk.Page (sent ask search page)) }
        ensures request { IfOk result (λ root. root.request ≡ Request.Scroll ask) }
        ensures page { IfOk result (λ root. root.page ≡ Some page) }
    {
        let after = copy_key(&page.after)?;
        let page = Boxed::new(self.alloc, page)?;
        Ok(Root {
            search,
            asked: RootAsk::Page(SentPage {
                ask,
                page: PageNote { search, after },
            }),
            request: Request::Scroll(Shared::new(self.alloc, ask)?),
            page: Some(page),
        })
    }

    /// A scroll begins. Its root starts on the node of its context, and takes the page along.
    pub(crate) fn start_scroll(
        &self,
        number: u32,
        command: &Command,
        context: ContextTarget,
        keep: Option<u64>,
    ) -> Result<Begun<W>, AllocError>
        requires number { IsCommand number }
        requires opened { AreOpened W.setting self.now.contexts }
        ensures { IfOk result (λ b. IsOutcome (scrolled_if number command.now keep (opener_in self.now number) (page_at self.now) (context_in self.now context)) b.state b.posts.items) }
    {
        let alloc = self.alloc;
        let named = self.context_named(context);
        let Some(id) = named else {
            return Ok(Begun::answered(alloc, LineReply::NoContext(None)));
        };
        let Some(page) = self.page_of(id)? else {
            return Ok(Begun::answered(alloc, LineReply::NoContext(named)));
        };
        let ask = ScrollAsk {
            id,
            keep,
            owner: None,
        };
        let root = self.page_root(ask, self.opener_of(id, number), page)?;
        Ok(started(alloc, number, command, id.node, root)?)
    }

    /// A clear begins, and has its answer.
    pub(crate) fn clear(&mut self, context: ContextTarget) -> Begun<W>
        ensures begins { IsOutcome (begun.answered (LineReply.Cleared (frees self.old (context_in self.old context))), []) result.state result.posts.items }
        ensures same { SameTime self.old self.new }
        ensures entries { self.new.entries.items ≡ self.old.entries.items }
        ensures freed { self.new.contexts ≡ begun.contexts_without self.old (context_in self.old context) }
    {
        let freed = match self.context_named(context) {
            Some(id) => self.contexts.table.clear(id, None),
            None => false,
        };
        Begun::answered(self.alloc, LineReply::Cleared(freed))
    }

    /// The root of a command has ended. Where that was a search, its good answer opens a context where the search has a keep-alive and
    /// no context of its id is there.
    pub(crate) fn open(
        &mut self,
        command: u32,
        request: &AnsweredRequest,
        reply: &Reply,
    ) -> Result<(), AllocError>
        requires opened { AreOpened W.setting self.old.contexts }
        requires may { MayOpen W.setting command (opening request.now reply.now) }
        ensures opens { OnOk result (Opens self.old.contexts self.old.clock command request.now reply.now self.new.contexts) }
        ensures opened { OnOk result (AreOpened W.setting self.new.contexts) }
        ensures same { SameTime self.old self.new }
        ensures entries { self.new.entries.items ≡ self.old.entries.items }
    {
        let (AnsweredRequest::Search(ask), Reply::Search(reply)) = (request, reply) else {
            return Ok(());
        };
        let Some(id) = reply.get().context else {
            return Ok(());
        };
        if self.contexts.table.get(id).is_some() {
            return Ok(());
        }
        match opened(self.alloc, id, ask, reply.get(), self.clock)? {
            Some(context) => {
                self.contexts.openers.note(id, command)?;
                Ok(self.contexts.table.start(context)?)
            }
            None => Ok(()),
        }
    }

    /// The root of a scroll has ended: it took its context and gives it back, with the last row that it showed as the cursor. One that was
    /// rejected has not taken it.
    pub(crate) fn turn_page(&mut self, ask: ScrollAsk, reply: &Reply) -> Result<(), AllocError>
        ensures turned { OnOk result (self.new.contexts ≡ after_page self.old.contexts self.old.clock ask reply.now) }
        ensures same { SameTime self.old self.new }
        ensures entries { self.new.entries.items ≡ self.old.entries.items }
    {
        if let Reply::Rejected { .. } = reply {
            return Ok(());
        }
        let cursor = cursor_of(reply)?;
        use_once(&mut self.contexts.table, ask, cursor, self.clock);
        Ok(())
    }
}
