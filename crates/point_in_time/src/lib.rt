//! Points in time: what an index was at one moment, shard by shard, which any number of searches read until it is closed or was not used for
//! its keep-alive; and the cursors that these searches leave, after which other ones go on.
//!
//! After Elasticsearch's points in time and its `search_after`. A point in time is kept as the context of a scroll is, by the code that keeps
//! those: [`scroll_table::Ends`] knows the moments at which they expire, [`scroll_table::Versions`] the versions that they keep. But no search
//! has it for itself, and the cursor is not its own.
#![tactic(auto)]

ghost use Rattle.std.specs.Prelude.{◌≡◌, ◌≢◌, [], None, Some};
ghost use Rattle.point_in_time.specs.Example.{almost, closed, fresh, late, over, pinning, read, running, script, unread, used};
ghost use Rattle.point_in_time.specs.Stands.{PointStands, point_at};

mod cursors;
mod pit;
mod sorts;
mod table;

pub use cursors::Cursor;
pub use pit::{Missing, Pit};
pub use table::PitTable;
pub use task_events::{Context, ShardCount, ShardCounts};
use task_events::{SearchAsk, SearchReply};
use task_ids::{Headers, TaskId};

/// A point in time does not stand before the task that opens it has ended well. It stands for its keep-alive of a second from then on, and again
/// from its last use on, to the millisecond; and not where it is closed. Where a shard failed none is opened.
///
/// It computes nothing: its contract is the example.
pub fn example(
    task: TaskId,
    search: TaskId,
    headers: &Headers,
    ask: &SearchAsk,
    reply: &SearchReply,
)
    ensures running { point_at (script ask.now headers.now) (pinning task) task (running task) ≡ None }
    ensures over { reply.now.failed ≡ [] → PointStands (script ask.now headers.now) (pinning task) task (fresh task ask.now reply.now) (over task reply.now) }
    ensures failed { reply.now.failed ≢ [] → point_at (script ask.now headers.now) (pinning task) task (over task reply.now) ≡ None }
    ensures almost { reply.now.failed ≡ [] → PointStands (script ask.now headers.now) (pinning task) task (fresh task ask.now reply.now) (almost task reply.now) }
    ensures unread { point_at (script ask.now headers.now) (pinning task) task (unread task reply.now) ≡ None }
    ensures read { reply.now.failed ≡ [] → PointStands (script ask.now headers.now) (pinning task) task (used task ask.now reply.now) (read task search reply.now) }
    ensures late { point_at (script ask.now headers.now) (pinning task) task (late task search reply.now) ≡ None }
    ensures closed { point_at (script ask.now headers.now) (pinning task) task (closed task reply.now) ≡ None }
{}
