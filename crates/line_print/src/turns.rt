//! The events of each command, those between its beginning and the next, and how tasks end with them.

ghost use Rattle.std.specs.Prelude.{◌≡◌, ◌+◌, ◌≤◌, IfOk, length, map, reverse, drop};
ghost use Rattle.std.specs.HashMap.{get};
ghost use Rattle.std.specs.List.{position_or_len, before_first, after_first, range_with_len};
ghost use Rattle.task_ids.specs.declared.task_id.TaskId.{TaskId};
ghost use Rattle.task_events.specs.Tasks.{reply_of};
ghost use Rattle.task_events.specs.Turns.{is_begin, events_of};
ghost use Rattle.line_print.specs.Ends.{same_id, reply_at, AreEndsOfFirst, AreEndsBefore, IsRest};

use crate::ends::note_end;
use std::alloc::{AllocError, Global};
use std::collections::HashMap;
use task_events::{Event, Events, History};
use task_ids::TaskId;

fn is_begin(event: &Event) -> bool
    ensures { result ≡ is_begin event.now }
{
    matches!(event, Event::Begin { .. })
}

/// The first place, not before this one, at which a command begins, or the one past the last event. Notes how tasks end up to there, so
/// that no event is looked at once more for that.
fn next_begin(
    history: &History,
    from: usize,
    ends: &mut HashMap<TaskId, usize>,
) -> Result<usize, AllocError>
    requires from { from ≤ length history.now }
    requires ends { AreEndsOfFirst from (reverse history.now) ends.old }
    ensures place { IfOk result (λ at. at ≡ from + position_or_len is_begin (drop from (reverse history.now))) }
    ensures ends { IfOk result (λ at. AreEndsOfFirst (at + 1) (reverse history.now) ends.new) }
{
    for at in from..history.len() {
        let Some(event) = history.get(at) else {
            unreachable!()
        };
        note_end(event, at, ends)?;
        if is_begin(event) {
            return Ok(at);
        }
    }
    Ok(history.len())
}

/// Takes the events up to the next beginning of a command away, and that beginning, and notes how tasks end with them. `rest` are the
/// last events of the history.
fn next_turn<'a>(
    history: &History,
    rest: &mut Events<'a>,
    ends: &mut HashMap<TaskId, usize>,
) -> Result<Events<'a>, AllocError>
    requires rest { IsRest history.now rest.old }
    requires ends { AreEndsBefore history.now rest.old ends.old }
    ensures rest { IfOk result (λ _. IsRest history.now rest.new) }
    ensures ends { IfOk result (λ _. AreEndsBefore history.now rest.new ends.new) }
    ensures turn { IfOk result (λ turn. turn ≡ before_first is_begin rest.old) }
    ensures after { IfOk result (λ _. rest.new ≡ after_first is_begin rest.old) }
{
    let from = history.len() - rest.len();
    let begin = next_begin(history, from, ends)?;
    let turn = rest.take_front(begin - from);
    rest.next();
    Ok(turn)
}

/// The events that came while 0, 1, 2 and more commands had begun, up to so many, and for each task that has ended the place of the event
/// with which it did, from the oldest at 0. It looks at each event once.
pub(crate) fn turns_of<'a>(
    alloc: Global,
    history: &'a History,
    commands: usize,
) -> Result<(Vec<Events<'a>>, HashMap<TaskId, usize>), AllocError>
    ensures turns { IfOk result (λ found. found.0.items ≡ map (λ k. events_of k history.now) (range_with_len 0 (commands + 1))) }
    ensures ends { IfOk result (λ found. (t : TaskId) → reply_at (reverse history.now) (get same_id found.1 t) ≡ reply_of t history.now) }
{
    let mut turns = Vec::new(alloc);
    let mut ends = HashMap::new(alloc);
    let mut rest = history.events();
    for _ in 0..commands {
        turns.push(next_turn(history, &mut rest, &mut ends)?)?;
    }
    turns.push(next_turn(history, &mut rest, &mut ends)?)?;
    while !rest.is_empty() {
        next_turn(history, &mut rest, &mut ends)?;
    }
    Ok((turns, ends))
}
