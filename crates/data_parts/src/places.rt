//! The places of children.
ghost use Rattle.std.specs.Prelude.{◌≡◌, ◌≤◌};
ghost use Rattle.node_link.specs.Lawful.{IsPlace};
ghost use Rattle.data_parts.specs.Places.{child_slice, child_place};

use node_link::Place;
use node_parts::kinds::{action_of, shard_of};
use task_events::Request;

/// The last shard that a place tells. No index has more than 15.
const LAST_SHARD: u32 = 14;

/// Which slice the child of a task at a place works on: 1 plus its slice, or else its parent's.
fn child_slice(parent: &Place, request: &Request) -> u32
    requires { IsPlace parent.now }
    ensures slice { result ≡ child_slice parent.now request.now }
    ensures low { result ≤ 32 }
{
    match request {
        Request::Slice(ask) => {
            let ask = ask.get();
            let _slices = ask.reindex.slices;
            ask.slice + 1
        }
        _ => parent.slice,
    }
}

/// The place of the child of a task, by the task's own place and what the child is asked.
pub fn child_place(parent: &Place, request: &Request) -> Place
    requires { IsPlace parent.now }
    ensures place { result ≡ child_place parent.now request.now }
    ensures lawful { IsPlace result }
{
    let shard = match shard_of(request) {
        Some(shard) => shard.min(LAST_SHARD),
        None => 0,
    };
    Place {
        command: parent.command,
        search: parent.search,
        slice: child_slice(parent, request),
        action: action_of(request),
        shard,
    }
}
