//! What a registration is asked for, and what it makes before it claims.
ghost use Rattle.std.specs.Prelude.{◌≡◌, IfOk, is_some, option_copied};
ghost use Rattle.task_work.specs.Works.{is_page};
ghost use Rattle.node_parts.specs.Starting.{page_in};
ghost use Rattle.live_tasks.specs.Registers.{AreParts, IsWorkFor, new_entry};

use crate::entry::Entry;
use crate::places::AskedPlaces;
use child_track::ChildTrack;
use node_link::{Page, Place};
use node_parts::running::Running;
use node_parts::starting::new_task;
use std::alloc::{AllocError, Global};
use task_events::{AnsweredRequest, Context, Request, ScrollAsk};
use task_ids::{Boxed, Cluster, Headers, NewTask, TaskId};
use task_table::Ticket;
use task_work::Work;

/// What a letter asks for: a task at a place, for a request.
pub struct Wanted<'a> {
    /// Which task of the run it is.
    pub place: Place,
    pub request: &'a Request,
    /// What the request carries.
    pub headers: &'a Headers,
    /// The page that a scroll is worked from, which its answer tells.
    pub page: Option<&'a Page>,
    /// The context over which a scroll is worked. Only a scroll has one.
    pub context: Option<&'a Context>,
}

/// A task that is to be, but for its ticket.
#[derive(Drop)]
pub(crate) struct Parts {
    pub(crate) place: Place,
    pub(crate) work: Work,
    pub(crate) shows: Option<ScrollAsk>,
    pub(crate) headers: Headers,
    pub(crate) info: NewTask,
    pub(crate) request: AnsweredRequest,
    pub(crate) page: Option<Boxed<Page>>,
}

/// A page in an allocation of its own, which it shares with no one.
fn copy_page(alloc: Global, page: Option<&Page>) -> Result<Option<Boxed<Page>>, AllocError>
    ensures { IfOk result (λ copy. copy ≡ option_copied page.entry) }
{
    let Some(page) = page else {
        return Ok(None);
    };
    match Boxed::new(alloc, page.copy()?) {
        Ok(boxed) => Ok(Some(boxed)),
        Err(_) => Err(AllocError),
    }
}

/// The page that a request asks for, where it asks for one.
fn page_in(request: &Request) -> Option<ScrollAsk>
    ensures { result ≡ page_in request.now }
{
    match request {
        Request::Scroll(ask) => Some(*ask.get()),
        _ => None,
    }
}

/// The work of a task that is wanted, which has done nothing. It fails only for want of memory.
fn work_for(
    alloc: Global,
    id: TaskId,
    wanted: &Wanted<'_>,
    cluster: &Cluster,
) -> Result<Work, AllocError>
    requires context { is_some wanted.now.context ≡ is_page wanted.now.request.now }
    ensures { IfOk result (IsWorkFor id wanted.now cluster.now.shards) }
{
    match Work::new(alloc, id, wanted.request, cluster, wanted.context) {
        Ok(work) => Ok(work),
        Err(failed) => Err(failed),
    }
}

impl Parts {
    /// What the task with this id is made of, which the parent asked for and which starts at this moment in milliseconds. It fails only
    /// for want of memory.
    pub(crate) fn of(
        alloc: Global,
        id: TaskId,
        parent: Option<TaskId>,
        wanted: &Wanted<'_>,
        cluster: &Cluster,
        now: u64,
    ) -> Result<Parts, AllocError>
        requires context { is_some wanted.now.context ≡ is_page wanted.now.request.now }
        ensures { IfOk result (AreParts id parent wanted.now cluster.now.shards now) }
    {
        let headers = wanted.headers.copy()?;
        let request = AnsweredRequest::of(wanted.request)?;
        let page = copy_page(alloc, wanted.page)?;
        let info = new_task(alloc, wanted.request, parent, now, wanted.headers)?;
        let work = work_for(alloc, id, wanted, cluster)?;
        Ok(Parts {
            place: wanted.place,
            work,
            shows: page_in(wanted.request),
            headers,
            info,
            request,
            page,
        })
    }

    /// The live task of a ticket. A child is new, since its check is still to come.
    pub(crate) fn into_entry(self, alloc: Global, ticket: Ticket) -> Entry
        ensures { result ≡ new_entry ticket self }
    {
        let Parts {
            place,
            work,
            shows,
            headers,
            info,
            request,
            page,
        } = self;
        let id = ticket.id();
        let is_new = ticket.parent().is_some();
        Entry {
            running: Running {
                ticket,
                track: ChildTrack::new(alloc, id),
                work,
                page: shows,
                is_new,
                headers,
            },
            place,
            info,
            request,
            page,
            asked: AskedPlaces::new(alloc),
        }
    }
}
