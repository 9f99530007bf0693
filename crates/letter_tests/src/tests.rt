//! Letters on a board of one slot and one ban, and what letters are made of.
ghost use Rattle.std.specs.Prelude.{◌≡◌, IfSome, All};
ghost use Rattle.race_board.specs.Seats.{seat_view, IsControlOf, IsSeatOf, IsNew};

use super::*;
use cancel_core::{Act, CancelCore};
use node_link::{Body, Letter, Page};
use query_match::{Query, SearchBody};
use race_board::{BoardParts, ControlSeat, DataSeat, Full, RaceBoard};
use shared_value::Shared;
use std::alloc::{AllocError, Global};
use task_events::{
    AnsweredRequest, BulkAsk, Context, Request, ScrollAsk, SearchAsk, ShardCount, ShardCounts,
};
use task_ids::{Items, TaskId, Text};
use task_table::Ticket;
use tasks_api::Filter;

/// A script of which each command may cancel.
struct AnyScript;

impl Script for AnyScript {
    ghost cancels = { λ _. Unit {0} };
}

type Run = RunOf<AnyScript>;

type Board = RaceBoard<Run>;

fn root() -> TaskId {
    TaskId { node: 1, number: 1 }
}

/// The letter by which command 4 bans a task of another node here.
fn ban() -> Letter<Run> {
    let parent = TaskId { node: 2, number: 1 };
    Letter::new(Body::Ban {
        parent,
        cancel: 4,
        to: 1,
    })
}

/// The letter by which command 4 cancels the root.
fn cancel() -> Letter<Run> {
    Letter::new(Body::Cancel {
        cancel: 4,
        task: root(),
        wait: false,
    })
}

/// The root's ticket, where the seat gets one.
fn start(board: &Board, seat: &mut DataSeat<Run>) -> Option<Ticket>
    requires fits { IsSeatOf board.now seat.old }
    requires free { (seat_view seat.old).drawn ≡ 0 }
    ensures fits { IsSeatOf board.now seat.new }
{
    let number = board.draw(seat)?;
    match board.claim(seat, number, None, None) {
        Ok(ticket) => Some(ticket),
        Err(Full(token)) => {
            if let Some(token) = token {
                let _receipt = token.reject();
            }
            None
        }
    }
}

/// The one data seat of a new board.
fn only(seats: Vec<DataSeat<Run>>, board: &Board) -> Option<DataSeat<Run>>
    requires { All (IsNew board.now) seats.items }
    ensures { IfSome result (λ seat. IsSeatOf board.now seat × ((seat_view seat).drawn ≡ 0)) }
{
    let mut seats = seats;
    seats.pop()
}

/// Starts the root and cancels it by the letter: the acts that are due, or none where it was not marked.
fn cancel_root(
    alloc: Global,
    board: &Board,
    control: &mut ControlSeat<Run>,
    seat: &mut DataSeat<Run>,
) -> Result<Option<Vec<Act>>, AllocError>
    requires control { IsControlOf board.now control.old }
    requires fits { IsSeatOf board.now seat.old }
    requires free { (seat_view seat.old).drawn ≡ 0 }
{
    let mut core = CancelCore::new(alloc, 1);
    let Some(ticket) = start(board, seat) else {
        return Ok(None);
    };
    let acts = begin_cancel(board, control, &mut core, cancel());
    ticket.give_up();
    acts
}

/// The ban is put where no other of its parent stands, and no task is there to be marked. Then a root is, and its cancellation begins.
#[test]
fn letters_ban_and_mark(rt: HostRuntime) -> Result<(), AllocError> {
    let alloc = rt.alloc();
    let BoardParts {
        board,
        mut control,
        seats,
    } = Board::new(alloc, 1, 1, 1, 1)?;
    assert_eq!(rt; put_ban(&board, &mut control, ban()), Some(0));
    assert_eq!(rt; put_ban(&board, &mut control, ban()), None);
    let mut core = CancelCore::new(alloc, 1);
    let none = begin_cancel(&board, &mut control, &mut core, cancel())?;
    assert!(rt; none.is_none());
    let seat = only(seats, &board);
    assert!(rt; seat.is_some());
    if let Some(mut seat) = seat {
        let acts = cancel_root(alloc, &board, &mut control, &mut seat)?;
        let placed = Act::AnswerPlaced {
            cancel: 4,
            task: root(),
        };
        assert!(rt; acts.is_some_and(|acts| acts.as_slice() == [placed].as_slice()));
    }
    Ok(())
}

/// A cancellation by a filter, whose number goes on.
#[test]
fn a_filter_goes_to_the_workers(rt: HostRuntime) -> Result<(), AllocError> {
    let alloc = rt.alloc();
    let read = Filter::read(alloc, Some("*search*,x"), Some("n2"), Some(root()))?;
    let filter = read.copy()?;
    assert!(rt;
        filter
            .actions
            .as_slice()
            .iter()
            .map(|text| text.as_str().len())
            .eq([8, 1])
    );
    assert!(rt;
        filter
            .nodes
            .as_slice()
            .iter()
            .all(|text| text.as_str() == "n2")
    );
    assert_eq!(rt; filter.nodes.as_slice().len(), 1);
    assert!(rt; filter.parent == Some(root()));
    let letter: Letter<Run> = Letter::new(Body::CancelMatching {
        cancel: 4,
        filter,
        wait: true,
    });
    let told = matches_of(alloc, 0, &letter);
    assert!(rt;
        matches!(
            told.as_ref().map(|letter| letter.body()),
            Some(Body::Matches {
                worker: 0,
                cancel: 4,
                wait: true,
                ..
            })
        )
    );
    Ok(())
}

/// A text of its own.
fn text(alloc: Global, text: &str) -> Option<Shared<Text>> {
    let text = Text::new(String::from_str(alloc, text).ok()?);
    Shared::new(alloc, text).ok()
}

/// The context of a search with one shard, at version 3, in which 2 rows match.
fn context(alloc: Global) -> Option<Context> {
    let body = SearchBody {
        query: Query::all(alloc).ok()?,
        sort: query_match::Items::new(alloc),
        from: 0,
        size: 10,
    };
    let ask = SearchAsk {
        index: text(alloc, "a")?,
        body: Shared::new(alloc, body).ok()?,
        scroll: Some(5),
        slice: None,
        owner: None,
    };
    let count = ShardCount {
        shard: 0,
        version: 3,
        count: 2,
    };
    let counts = vec![in alloc; count].ok()?;
    Some(Context {
        id: root(),
        ask: Shared::new(alloc, ask).ok()?,
        shards: ShardCounts::new(counts).ok()?,
        after: None,
        keep_ms: Some(5),
        last_ms: 0,
        owner: None,
        busy: None,
    })
}

/// Whether a page of that context has its ask, its shards and its cursor.
fn is_its_page(page: &Page) -> bool {
    page.ask.get().index.get().as_str() == "a"
        && page.shards.version_of(0) == Some(3)
        && page.shards.as_slice().len() == 1
        && page.after.is_none()
}

#[test]
fn a_page_is_what_its_context_holds(rt: HostRuntime) -> Result<(), AllocError> {
    let context = context(rt.alloc()).ok_or(AllocError)?;
    let page = Page::of(&context)?;
    assert!(rt; is_its_page(&page));
    assert!(rt; is_its_page(&page.copy()?));
    Ok(())
}

/// The number of documents of a batch that an answer tells.
fn docs_of(answered: &AnsweredRequest) -> Option<u64> {
    match answered {
        AnsweredRequest::Bulk { docs, .. } => Some(*docs),
        _ => None,
    }
}

#[test]
fn an_answer_tells_how_many_documents_a_batch_has(rt: HostRuntime) -> Result<(), AllocError> {
    let alloc = rt.alloc();
    let ask = BulkAsk {
        dest: text(alloc, "b").ok_or(AllocError)?,
        docs: Items::new(alloc),
    };
    let ask = Shared::new(alloc, ask).map_err(|_| AllocError)?;
    let answered = AnsweredRequest::of(&Request::Bulk(ask))?;
    assert_eq!(rt; docs_of(&answered), Some(0));
    let page = ScrollAsk {
        id: root(),
        keep: None,
        owner: None,
    };
    let page = Shared::new(alloc, page).map_err(|_| AllocError)?;
    let answered = AnsweredRequest::of(&Request::Scroll(page))?;
    assert_eq!(rt; docs_of(&answered), None);
    Ok(())
}
