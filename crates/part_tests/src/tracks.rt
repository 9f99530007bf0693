//! The asks of a task: tokens, answers, and what a closed track refuses.

use child_track::{AskError, ChildTrack, Receipt, Stranger};
use task_ids::TaskId;

fn task() -> TaskId {
    TaskId { node: 1, number: 1 }
}

#[test]
fn a_token_names_its_ask(rt: HostRuntime) {
    let mut track = ChildTrack::new(rt.alloc(), task());
    let is_named = match track.ask(2) {
        Ok(token) => {
            let is_first = token.parent() == task() && token.ask() == 1;
            let _receipt = token.reject();
            is_first
        }
        Err(_) => false,
    };
    assert!(rt; is_named);
}

#[test]
fn a_closed_track_asks_no_more(rt: HostRuntime) {
    let mut track = ChildTrack::new(rt.alloc(), task());
    let _nodes = track.close(4);
    let refused = match track.ask(3) {
        Ok(token) => {
            let _receipt = token.reject();
            None
        }
        Err(error) => Some(error),
    };
    assert!(rt; refused == Some(AskError::Closed { cancel: 4 }));
}

/// Whether the receipt answers the first ask of a root's track, once.
fn answers_once(track: &mut ChildTrack, receipt: Receipt) -> bool {
    let is_its = receipt.task().is_none() && receipt.parent() == Some(task()) && receipt.ask() == 1;
    let first = track.answer(receipt);
    let second = track.answer(receipt);
    is_its && first == Ok(()) && second == Err(Stranger(receipt))
}

/// Whether closing the track finds node 2 alone asked.
fn closes_over_node_2(track: &mut ChildTrack) -> bool {
    let nodes = track.close(4);
    nodes.has(2) && !nodes.has(1) && !nodes.has(3) && track.nodes() == nodes
}

/// Whether the receipt of a root's track tells its task alone.
fn tells_its_task(sealed: Receipt) -> bool {
    sealed.task() == Some(task()) && sealed.parent().is_none() && sealed.ask() == 0
}

#[test]
fn a_closed_track_takes_each_answer_once(rt: HostRuntime) {
    let mut track = ChildTrack::new(rt.alloc(), task());
    let receipt = match track.ask(2) {
        Ok(token) => Some(token.reject()),
        Err(_) => None,
    };
    assert!(rt; closes_over_node_2(&mut track) && track.unanswered() == 1);
    assert!(rt; receipt.is_some_and(|it| answers_once(&mut track, it)));
    assert!(rt; track.unanswered() == 0);
    assert!(rt; tells_its_task(track.seal(None)));
}
