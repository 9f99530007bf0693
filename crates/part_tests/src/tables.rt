//! The table of a node's live tasks.

ghost use Rattle.std.specs.Prelude.{◌≡◌, IfOk};
ghost use Rattle.child_track.specs.Token.{token_parent};
ghost use Rattle.task_ids.specs.Limits.{IsCancel};
ghost use Rattle.task_ids.specs.declared.task_id.TaskId.{TaskId};
ghost use Rattle.task_table.specs.Table.{IsLive};

use child_track::{AskToken, ChildTrack};
use std::alloc::Global;
use std::test::Fail;
use task_ids::{Action, Headers, NewTask, TaskId, Text};
use task_table::{MarkAnswer, PutError, TaskTable, Ticket};

fn new_task(alloc: Global, parent: Option<TaskId>) -> NewTask
    ensures { result.parent ≡ parent }
{
    NewTask {
        action: Action::Query,
        description: Text::new(String::new(alloc)),
        start_ms: 0,
        parent,
        headers: Headers { opaque_id: None },
    }
}

/// Spends the token that a refusal hands back, and names the refusal.
fn refusal(refused: PutError) -> &'static str {
    let (token, name) = match refused {
        PutError::Full(token) => (token, "full"),
        PutError::NumbersSpent(token) => (token, "numbers spent"),
        PutError::Memory(token) => (token, "memory"),
    };
    if let Some(token) = token {
        let _receipt = token.reject();
    }
    name
}

/// Puts a task in. Gives its ticket, or which refusal came.
fn put_in(
    alloc: Global,
    table: &mut TaskTable,
    parent: Option<TaskId>,
    token: Option<AskToken>,
) -> Result<Ticket, &'static str>
    requires { token_parent token ≡ parent }
    ensures live { IfOk result (λ ticket. IsLive table.new ticket.id) }
    ensures kept { (id : TaskId) → IsLive table.old id → IsLive table.new id }
{
    match table.put(new_task(alloc, parent), token) {
        Ok(ticket) => Ok(ticket),
        Err(refused) => Err(refusal(refused)),
    }
}

/// Puts a root in and gives its ticket up. Gives its number, or which refusal came.
fn put_root(alloc: Global, table: &mut TaskTable) -> Result<u32, &'static str>
    ensures { (id : TaskId) → IsLive table.old id → IsLive table.new id }
{
    let ticket = put_in(alloc, table, None, None)?;
    let number = ticket.id().number;
    ticket.give_up();
    Ok(number)
}

fn mark_kept(table: &mut TaskTable, number: u32, cancel: u32) -> MarkAnswer
    requires { IsCancel cancel }
    ensures { (id : TaskId) → IsLive table.old id → IsLive table.new id }
{
    table.mark(number, cancel)
}

/// Whether only the first mark of the task 1 is kept, and no other task is found.
fn marks_once(table: &mut TaskTable) -> bool
    ensures { (id : TaskId) → IsLive table.old id → IsLive table.new id }
{
    let first = mark_kept(table, 1, 4);
    let second = mark_kept(table, 1, 5);
    let other = mark_kept(table, 2, 5);
    first == MarkAnswer::Marked && second == MarkAnswer::Already(4) && other == MarkAnswer::NotFound
}

/// Whether the task of this ticket ends as a root with this mark.
fn ends_with(alloc: Global, table: &mut TaskTable, ticket: Ticket, mark: u32) -> bool
    requires { IsLive table.old ticket.id }
{
    let id = ticket.id();
    let ended = table.end(ticket, ChildTrack::new(alloc, id));
    ended.receipt.task() == Some(id) && ended.receipt.parent().is_none() && ended.mark == Some(mark)
}

/// Whether the table has one row, of this number and without a mark.
fn has_one_row(table: &TaskTable, number: u32) -> bool {
    table.rows().is_ok_and(|rows| {
        rows.len() == 1 && rows[0].id.number == number && rows[0].cancelled.is_none()
    })
}

/// Whether the task of the ticket fills a table of one slot, is marked once, and ends.
fn fills_until_it_ends(alloc: Global, table: &mut TaskTable, ticket: Ticket) -> bool
    requires { IsLive table.old ticket.id }
{
    let is_full = put_root(alloc, table) == Err("full");
    let is_marked = marks_once(table);
    ends_with(alloc, table, ticket, 4) && is_full && is_marked
}

#[test]
fn one_slot_holds_one_task_at_a_time(rt: HostRuntime) -> Result<(), Fail> {
    let mut table = TaskTable::new(rt.alloc(), 1, 1)?;
    let ticket = put_in(rt.alloc(), &mut table, None, None)?;
    let id = ticket.id();
    assert!(rt; fills_until_it_ends(rt.alloc(), &mut table, ticket));
    assert!(rt; id == TaskId { node: 1, number: 1 });
    assert!(rt; put_root(rt.alloc(), &mut table) == Ok(2));
    assert!(rt; has_one_row(&table, 2));
    Ok(())
}

/// Puts a child in for a token and gives its ticket up. Gives its number, or which refusal came.
fn put_child(
    alloc: Global,
    table: &mut TaskTable,
    parent: TaskId,
    token: AskToken,
) -> Result<u32, &'static str>
    requires { token.parent ≡ parent }
{
    let ticket = put_in(alloc, table, Some(parent), Some(token))?;
    let number = ticket.id().number;
    ticket.give_up();
    Ok(number)
}

#[test]
fn children_are_found_by_ascending_number(rt: HostRuntime) -> Result<(), Fail> {
    let parent = TaskId { node: 1, number: 1 };
    let mut track = ChildTrack::new(rt.alloc(), parent);
    let mut table = TaskTable::new(rt.alloc(), 2, 4)?;
    for number in 1..4 {
        let token = track.ask(2)?;
        assert!(rt; put_child(rt.alloc(), &mut table, parent, token) == Ok(number));
    }
    for (next, marked) in [(1, 2), (1, 1), (3, 3)] {
        assert!(rt; table.next_child(parent) == Some(next));
        assert!(rt; table.mark(marked, 7) == MarkAnswer::Marked);
    }
    assert!(rt; table.next_child(parent).is_none());
    Ok(())
}

/// Puts a root in and ends it. Gives its number, or which refusal came.
fn pass_root(alloc: Global, table: &mut TaskTable) -> Result<u32, &'static str> {
    let ticket = put_in(alloc, table, None, None)?;
    let id = ticket.id();
    let _ended = table.end(ticket, ChildTrack::new(alloc, id));
    Ok(id.number)
}

#[test]
fn the_last_number_is_given_once(rt: HostRuntime) -> Result<(), Fail> {
    let mut table = TaskTable::new(rt.alloc(), 15, 1)?;
    assert!(rt; !table.is_spent());
    for number in 1..1_048_576 {
        assert!(rt; pass_root(rt.alloc(), &mut table) == Ok(number));
    }
    assert!(rt; table.is_spent());
    assert!(rt; pass_root(rt.alloc(), &mut table) == Err("numbers spent"));
    Ok(())
}

#[test]
fn a_ticket_of_its_own_is_sealed(rt: HostRuntime) {
    let id = TaskId {
        node: 15,
        number: 9,
    };
    let ticket = Ticket::new(id, None);
    let own = ticket.id();
    let receipt = ticket.seal(ChildTrack::new(rt.alloc(), own));
    assert!(rt; receipt.task() == Some(id) && receipt.parent().is_none() && receipt.ask() == 0);
}
