//! Searches and reindexes begin.
ghost use Rattle.std.specs.Prelude.{◌≡◌, ◌≤◌, ◌∷◌, [], Some, Ok, is_some, IfOk, IfSome, IsSomeAnd};
ghost use Rattle.command_roots.specs.Roots.{least_size};
ghost use Rattle.node_link.specs.Lawful.{IsCommand, is_page};
ghost use Rattle.query_parse.specs.Bodies.{body_at};
ghost use Rattle.query_parse.specs.Reindexes.{reindex_at};
ghost use Rattle.reply_facts.specs.Letters.{IsStartOf};
ghost use Rattle.script_lang.specs.Fits.{IsSliceCount, IsRate};
ghost use Rattle.task_events.specs.Answered.{as_answered};
ghost use Rattle.run_book.specs.Begun as begun;
ghost use Rattle.run_book.specs.Begun.{IsOutcome, MayStart, reindex_asks, search_asks};
ghost use Rattle.run_book.specs.Entries.{is_known_to};
ghost use Rattle.run_book.specs.Posts.{action_of, start_of, start_posts};

use crate::begin::Begun;
use crate::book::Book;
use crate::entry::{RootAsk, State, Waits};
use command_roots::{headers_of, reindex_ask, search_ask};
use line_print::LineReply;
use node_link::{Body as Says, Letter, Page, Place, Start};
use query_parse::{BodyError, ReindexBody, ReindexError, read_body, read_reindex};
use run_facts::{Of, Post, Run, To};
use script_lang::Command;
use shared_value::Shared;
use std::alloc::{AllocError, Global};
use task_events::Request;
use task_ids::{Action, Body, Boxed, Text};

/// What a command that starts a task asks of it, or why it starts none.
#[derive(Drop)]
pub(crate) enum Asks {
    Task(Request),
    Nothing(LineReply),
}

/// A list of one letter.
pub(crate) fn one<L: Drop>(alloc: Global, post: Post<L>) -> Result<Vec<Post<L>>, AllocError>
    ensures { IfOk result (λ posts. posts.items ≡ post ∷ []) }
{
    let mut posts = Vec::with_capacity(alloc, 1)?;
    posts.push_reserved(post);
    Ok(posts)
}

/// The action of a root with this request.
fn action_of(request: &Request) -> Action
    ensures { result ≡ action_of request.now }
{
    match request {
        Request::Scroll(_) => Action::Scroll,
        Request::Reindex(_) => Action::Reindex,
        _ => Action::Search,
    }
}

/// The kind of a request of a root that is sent no page.
fn root_ask(request: &Request) -> RootAsk
    ensures { result ≡ begun.root_ask request.now }
{
    match request {
        Request::Reindex(_) => RootAsk::Reindex,
        _ => RootAsk::Search,
    }
}

/// A root that is to start.
#[derive(Drop)]
pub(crate) struct Root {
    /// The command whose search it looks through.
    pub(crate) search: u32,
    pub(crate) asked: RootAsk,
    pub(crate) request: Request,
    pub(crate) page: Option<Boxed<Page>>,
}

/// The letter that starts the root of a command.
fn start_letter<W: Run>(
    number: u32,
    search: u32,
    command: &Command,
    request: Request,
    page: Option<Boxed<Page>>,
) -> Result<Letter<Of<W>>, AllocError>
    requires number { IsCommand number }
    requires search { IsCommand search }
    requires page { is_some page ≡ is_page (as_answered request) }
    requires tells { IsStartOf W.setting (start_of number search command.now request page) }
    ensures { IfOk result (λ letter. letter ≡ Says.Start (start_of number search command.now request page)) }
{
    let headers = headers_of(command)?;
    let place = Place {
        command: number,
        search,
        slice: 0,
        action: action_of(&request),
        shard: 0,
    };
    Ok(Letter::new(Says::Start(Start {
        place,
        request,
        headers,
        page,
    })))
}

/// A command whose root starts on a node, by its first data worker.
pub(crate) fn started<W: Run>(
    alloc: Global,
    number: u32,
    command: &Command,
    node: u32,
    root: Root,
) -> Result<Begun<W>, AllocError>
    requires number { IsCommand number }
    requires search { IsCommand root.search }
    requires page { is_some root.page ≡ is_page (as_answered root.request) }
    requires tells { IsStartOf W.setting (start_of number root.search command.now root.request root.page) }
    ensures state { IfOk result (λ b. b.state ≡ State.Waits (Waits.Root root.asked)) }
    ensures posts { IfOk result (λ b. b.posts.items ≡ start_posts number root.search command.now node root.request root.page) }
{
    let Root {
        search,
        asked,
        request,
        page,
    } = root;
    let letter = start_letter(number, search, command, request, page)?;
    let to = To::Data { node, worker: 0 };
    let posts = one(alloc, Post { to, letter })?;
    Ok(Begun::waiting(Waits::Root(asked), posts))
}

impl<'a, W: Run> Book<'a, W> {
    /// What a search asks, or its body's first fault, or that its index is not there.
    fn search_asked(
        &self,
        index: &Text,
        scroll: Option<u64>,
        body: &Body,
    ) -> Result<Asks, AllocError>
        ensures { IfOk result (λ asks. asks ≡ search_asks (is_known_to self.now) index.now scroll (body_at (is_some scroll) (least_size scroll) body.now)) }
    {
        let alloc = self.alloc;
        let scrolls = scroll.is_some();
        let body = match read_body(alloc, body.as_json(), scrolls, u32::from(scrolls)) {
            Ok(body) => body,
            Err(BodyError::Memory) => return Err(AllocError),
            Err(fault) => return Ok(Asks::Nothing(LineReply::BadBody(fault))),
        };
        if !self.known.contains(index.as_str()) {
            drop(body);
            return Ok(Asks::Nothing(LineReply::NoIndex(index.copy()?)));
        }
        let ask = search_ask(alloc, index, scroll, body)?;
        Ok(Asks::Task(Request::Search(Shared::new(alloc, ask)?)))
    }

    /// What a reindex asks, or its body's first fault, or that its source is not there.
    fn reindex_asked(&self, body: &Body, slices: u32, rate: Option<u32>) -> Result<Asks, AllocError>
        requires slices { IsSliceCount slices }
        requires rate { IsRate rate }
        ensures { IfOk result (λ asks. reindex_asks (is_known_to self.now) slices rate (reindex_at body.now) ≡ Some asks) }
    {
        let alloc = self.alloc;
        let body = match read_reindex(alloc, body.as_json()) {
            Ok(body) => body,
            Err(ReindexError::Memory) => return Err(AllocError),
            Err(fault) => return Ok(Asks::Nothing(LineReply::BadReindex(fault))),
        };
        Ok(self.reindex_of(body, slices, rate)?)
    }

    /// What a reindex with this body asks, or that its source is not there.
    fn reindex_of(
        &self,
        body: ReindexBody,
        slices: u32,
        rate: Option<u32>,
    ) -> Result<Asks, AllocError>
        requires batch { (1 ≤ body.batch) × (body.batch ≤ 10000) }
        requires slices { IsSliceCount slices }
        requires rate { IsRate rate }
        ensures { IfOk result (λ asks. reindex_asks (is_known_to self.now) slices rate (Ok body) ≡ Some asks) }
    {
        let alloc = self.alloc;
        if !self.known.contains(body.source.as_str()) {
            let source = Text::new(body.source.into_string());
            return Ok(Asks::Nothing(LineReply::NoIndex(source)));
        }
        let ask = reindex_ask(alloc, body, slices, rate)?;
        Ok(Asks::Task(Request::Reindex(Shared::new(alloc, ask)?)))
    }

    /// A command starts the task that it asks for on a node.
    fn start(
        &self,
        number: u32,
        command: &Command,
        node: u32,
        asks: Asks,
    ) -> Result<Begun<W>, AllocError>
        requires number { IsCommand number }
        requires may { MayStart W.setting number command.now asks }
        ensures { IfOk result (λ b. IsOutcome (begun.started number command.now node asks) b.state b.posts.items) }
    {
        match asks {
            Asks::Nothing(reply) => Ok(Begun::answered(self.alloc, reply)),
            Asks::Task(request) => {
                let root = Root {
                    search: number,
                    asked: root_ask(&request),
                    request,
                    page: None,
                };
                Ok(started(self.alloc, number, command, node, root)?)
            }
        }
    }

    /// A search begins.
    pub(crate) fn start_search(
        &self,
        number: u32,
        command: &Command,
        index: &Text,
        node: u32,
        scroll: Option<u64>,
        body: &Body,
    ) -> Result<Begun<W>, AllocError>
        requires number { IsCommand number }
        requires may { MayStart W.setting number command.now (search_asks (is_known_to self.now) index.now scroll (body_at (is_some scroll) (least_size scroll) body.now)) }
        ensures { IfOk result (λ b. IsOutcome (begun.started number command.now node (search_asks (is_known_to self.now) index.now scroll (body_at (is_some scroll) (least_size scroll) body.now))) b.state b.posts.items) }
    {
        let asks = self.search_asked(index, scroll, body)?;
        Ok(self.start(number, command, node, asks)?)
    }

    /// A reindex begins.
    pub(crate) fn start_reindex(
        &self,
        number: u32,
        command: &Command,
        node: u32,
        body: &Body,
        slices: u32,
        rate: Option<u32>,
    ) -> Result<Begun<W>, AllocError>
        requires number { IsCommand number }
        requires slices { IsSliceCount slices }
        requires rate { IsRate rate }
        requires may { IfSome (reindex_asks (is_known_to self.now) slices rate (reindex_at body.now)) (MayStart W.setting number command.now) }
        ensures { IfOk result (λ b. IsSomeAnd (reindex_asks (is_known_to self.now) slices rate (reindex_at body.now)) (λ asks. IsOutcome (begun.started number command.now node asks) b.state b.posts.items)) }
    {
        let asks = self.reindex_asked(body, slices, rate)?;
        Ok(self.start(number, command, node, asks)?)
    }
}
