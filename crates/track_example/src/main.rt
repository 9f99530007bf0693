//! The program `track_example`: a task asks two nodes, and each of its asks is answered once.
//!
//! An ask gives a token, which travels with the request. A token can be neither copied nor let go, so a program that loses
//! one does not compile. It is spent by the end of the child that it started, or by the rejection of its request; either
//! gives the receipt that answers the ask.
#![tactic(auto)]

ghost use Rattle.std.specs.Prelude.{◌≡◌, ◌+◌, ◌<◌, ◌≤◌, ◌^◌, length};

use child_track::{AskError, AskToken, ChildTrack, Receipt};
use std::alloc::{AllocError, Global};
use std::io;
use task_ids::TaskId;

const PARENT: TaskId = TaskId { node: 1, number: 1 };

const CHILD: TaskId = TaskId { node: 2, number: 1 };

/// The child of a request begins and ends, and its end spends the token.
fn run_child(alloc: Global, token: AskToken) -> Receipt {
    ChildTrack::new(alloc, CHILD).seal(Some(token))
}

/// Asks node 2, where the child runs, and node 3, which rejects the request. Gives the two receipts.
fn ask_both(alloc: Global, asks: &mut ChildTrack) -> Result<(Receipt, Receipt), AskError>
    requires room { length asks.old.asks + 2 < 2 ^ 32 }
    ensures asked { length asks.new.asks ≤ length asks.old.asks + 2 }
{
    let first = asks.ask(2)?;
    let second = match asks.ask(3) {
        Ok(token) => token,
        Err(error) => {
            // Without this line the first token would be lost, and the program refused.
            let _unsent = first.reject();
            return Err(error);
        }
    };
    Ok((run_child(alloc, first), second.reject()))
}

/// What came of a receipt that the parent was given.
fn told(asks: &mut ChildTrack, receipt: Receipt) -> &'static str
    ensures no_ask_more { length asks.new.asks ≡ length asks.old.asks }
{
    match asks.answer(receipt) {
        Ok(()) => "taken",
        Err(_) => "handed back",
    }
}

fn main(rt: HostRuntime) -> io::Result<()> {
    let mut asks = ChildTrack::new(rt.alloc(), PARENT);
    let Ok((ended, rejected)) = ask_both(rt.alloc(), &mut asks) else {
        return Err(AllocError.into());
    };
    println!(rt; "asked two nodes, {} unanswered", asks.unanswered())?;
    println!(rt;
        "the rejection is {}, {} unanswered",
        told(&mut asks, rejected),
        asks.unanswered()
    )?;
    println!(rt;
        "the end is {}, {} unanswered",
        told(&mut asks, ended),
        asks.unanswered()
    )?;
    println!(rt; "the end once more is {}", told(&mut asks, ended))?;
    let _nodes = asks.close(4);
    let is_refused = match asks.ask(2) {
        Ok(token) => token.reject().task().is_some(),
        Err(error) => error == AskError::Closed { cancel: 4 },
    };
    println!(rt; "after the cancellation 4 an ask is refused: {is_refused}")
}
