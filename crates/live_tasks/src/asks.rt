//! An ask of one live task, and an answer to it.
ghost use Rattle.std.specs.Prelude.{◌≡◌, ◌+◌, ◌^◌, ◌<◌, length, true, None, IfSome, IfOk, IfErr, OnOk, OnErr};
ghost use Rattle.task_ids.specs.Limits.{IsNode};
ghost use Rattle.child_track.specs.Track.{Answers, with_answer};
ghost use Rattle.node_parts.specs.Running.{next_number};
ghost use Rattle.task_work.specs.Works.{can_ask, work_takes};
ghost use Rattle.live_tasks.specs.Entries.{after_ask, after_answer};
ghost use Rattle.live_tasks.specs.Answering.{left_by};
ghost use Rattle.live_tasks.specs.Ties.{AskedOnNodes};

use crate::entry::Entry;
use crate::left::left;
use child_track::{AskToken, ChildTrack, Receipt};
use node_link::Place;
use task_events::{Reply, Stop};

/// The greatest number of asks of a task.
const MOST_ASKS: usize = 4_294_967_295;

/// The task asks for the child that comes next, at this place and on this node. Where memory runs out, or 4,294,967,295 asks were made,
/// nothing has changed (`Memory`).
pub(crate) fn ask_of(entry: &mut Entry, to: u32, place: Place, now: u64) -> Result<AskToken, Stop>
    requires node { IsNode to }
    requires open { entry.old.running.track.closed ≡ None }
    requires can { can_ask entry.old.running.work (next_number entry.old.running) ≡ true }
    requires placed { length entry.old.asked ≡ length entry.old.running.track.asks }
    ensures asked { OnOk result (entry.new ≡ after_ask entry.old to place) }
    ensures token { IfOk result (λ token. token ≡ record { parent = entry.old.running.track.task; ask = next_number entry.old.running }) }
    ensures err { OnErr result (entry.new ≡ entry.old) }
    ensures memory { IfErr result (λ stop. stop ≡ Stop.Memory) }
{
    if entry.asked.len() >= MOST_ASKS {
        return Err(Stop::Memory);
    }
    if entry.asked.push(place).is_err() {
        return Err(Stop::Memory);
    }
    match entry.running.ask(to, now) {
        Ok(token) => Ok(token),
        Err(stop) => {
            entry.asked.forget_last();
            Err(stop)
        }
    }
}

/// The task takes the answer to an unanswered ask, and gives the node from which it awaits nothing more, where this was the last
/// answer from there. Where memory runs out nothing has changed, and the answer is lost (`Memory`).
pub(crate) fn answer_of(
    entry: &mut Entry,
    receipt: Receipt,
    reply: Reply,
    now: u64,
) -> Result<Option<u32>, Stop>
    requires awaited { Answers receipt entry.old.running.track }
    requires takes { work_takes entry.old.running.work receipt.ask reply ≡ true }
    requires nodes { AskedOnNodes entry.old.running.track }
    requires moment { now < 2 ^ 60 }
    ensures answered { OnOk result (entry.new ≡ after_answer entry.old receipt.ask reply now) }
    ensures left { IfOk result (λ node. node ≡ left_by entry.old.running.track receipt.ask) }
    ensures node { IfOk result (λ node. IfSome node IsNode) }
    ensures err { OnErr result (entry.new ≡ entry.old) }
    ensures memory { IfErr result (λ stop. stop ≡ Stop.Memory) }
{
    if entry.running.work.feed(receipt.ask(), reply, now).is_err() {
        return Err(Stop::Memory);
    }
    Ok(take_in(&mut entry.running.track, receipt))
}

/// An unanswered ask is answered.
fn take_in(track: &mut ChildTrack, receipt: Receipt) -> Option<u32>
    requires awaited { Answers receipt track.old }
    requires nodes { AskedOnNodes track.old }
    ensures answered { track.new ≡ with_answer track.old receipt.ask }
    ensures left { result ≡ left_by track.old receipt.ask }
    ensures node { IfSome result IsNode }
{
    let before = track.nodes();
    match track.answer(receipt) {
        Ok(()) => left(before, track.nodes()),
        Err(_) => unreachable!(),
    }
}
