//! What changes of one live task, where it lies in the table.
ghost use Rattle.std.specs.Prelude.{◌≡◌, ◌^◌, ◌<◌, length, Some, IsSome, IfSome, IfOk, IfErr, OnOk, OnErr};
ghost use Rattle.std.specs.BTreeMap as tree;
ghost use Rattle.std.specs.Ordering.{nat_cmp};
ghost use Rattle.task_ids.specs.Limits.{IsCancel, IsNode};
ghost use Rattle.node_parts.specs.Running.{next_number};
ghost use Rattle.task_work.specs.Works.{BrokeOff, work_notes};
ghost use Rattle.task_work.specs.declared.work.Work.{Work};
ghost use Rattle.live_tasks.specs.declared.entry.Entry.{Entry};
ghost use Rattle.live_tasks.specs.Entries.{passed, closed, after_ask, after_answer, with_work};
ghost use Rattle.live_tasks.specs.Live.{ChangesOne};
ghost use Rattle.live_tasks.specs.Answering.{IsAnswer, CanAsk, TakesTurn, left_by};
ghost use Rattle.live_tasks.specs.Ties.{AskedOnNodes};
ghost use Rattle.live_tasks.specs.Turning.{TurnedOn};

use crate::asks::{answer_of, ask_of};
use crate::table::Tasks;
use child_track::{AskToken, Receipt};
use node_link::Place;
use shard_docs::Shard;
use std::alloc::AllocError;
use task_events::{Reply, Stop, WriteNote};

/// The task has passed.
pub(crate) fn pass(tasks: &mut Tasks, number: u32)
    requires live { IsSome (tree.get nat_cmp tasks.old number) }
    ensures passed { (e : Entry) → tree.get nat_cmp tasks.old number ≡ Some e → ChangesOne tasks.old tasks.new number (passed e) }
{
    let Some(entry) = tasks.get_mut(&number) else {
        unreachable!()
    };
    entry.get_mut().running.is_new = false;
}

/// A cancellation of the task is known.
pub(crate) fn close(tasks: &mut Tasks, number: u32, cancel: u32)
    requires live { IsSome (tree.get nat_cmp tasks.old number) }
    requires cancel { IsCancel cancel }
    ensures closed { (e : Entry) → tree.get nat_cmp tasks.old number ≡ Some e → ChangesOne tasks.old tasks.new number (closed e cancel) }
{
    let Some(entry) = tasks.get_mut(&number) else {
        unreachable!()
    };
    entry.get_mut().running.track.close(cancel);
}

/// The task asks for the child that comes next, at this place and on this node. Where memory runs out, or 4,294,967,295 asks were made,
/// nothing has changed (`Memory`).
pub(crate) fn note_ask(
    tasks: &mut Tasks,
    number: u32,
    to: u32,
    place: Place,
    now: u64,
) -> Result<AskToken, Stop>
    requires live { CanAsk (tree.get nat_cmp tasks.old number) }
    requires placed { IfSome (tree.get nat_cmp tasks.old number) (λ e. length e.asked ≡ length e.running.track.asks) }
    requires node { IsNode to }
    ensures asked { (e : Entry) → tree.get nat_cmp tasks.old number ≡ Some e → OnOk result (ChangesOne tasks.old tasks.new number (after_ask e to place)) }
    ensures token { (e : Entry) → tree.get nat_cmp tasks.old number ≡ Some e → IfOk result (λ token. token ≡ record { parent = e.running.track.task; ask = next_number e.running }) }
    ensures err { (e : Entry) → tree.get nat_cmp tasks.old number ≡ Some e → OnErr result (ChangesOne tasks.old tasks.new number e) }
    ensures memory { IfErr result (λ stop. stop ≡ Stop.Memory) }
{
    let Some(entry) = tasks.get_mut(&number) else {
        unreachable!()
    };
    ask_of(entry.get_mut(), to, place, now)
}

/// The task takes the answer to an unanswered ask. Where memory runs out nothing has changed, and the answer is lost (`Memory`). It
/// gives the node from which it awaits nothing more, where this was the last answer from there.
pub(crate) fn note_answer(
    tasks: &mut Tasks,
    number: u32,
    receipt: Receipt,
    reply: Reply,
    now: u64,
) -> Result<Option<u32>, Stop>
    requires fits { IsAnswer receipt reply (tree.get nat_cmp tasks.old number) }
    requires nodes { IfSome (tree.get nat_cmp tasks.old number) (λ e. AskedOnNodes e.running.track) }
    requires moment { now < 2 ^ 60 }
    ensures answered { (e : Entry) → tree.get nat_cmp tasks.old number ≡ Some e → OnOk result (ChangesOne tasks.old tasks.new number (after_answer e receipt.ask reply now)) }
    ensures left { (e : Entry) → tree.get nat_cmp tasks.old number ≡ Some e → IfOk result (λ node. node ≡ left_by e.running.track receipt.ask) }
    ensures node { IfOk result (λ node. IfSome node IsNode) }
    ensures err { (e : Entry) → tree.get nat_cmp tasks.old number ≡ Some e → OnErr result (ChangesOne tasks.old tasks.new number e) }
    ensures memory { IfErr result (λ stop. stop ≡ Stop.Memory) }
{
    let Some(entry) = tasks.get_mut(&number) else {
        unreachable!()
    };
    answer_of(entry.get_mut(), receipt, reply, now)
}

/// The task takes a turn of its work over its shard.
pub(crate) fn note_turn(
    tasks: &mut Tasks,
    number: u32,
    shard: &mut Shard,
) -> Result<Vec<WriteNote>, AllocError>
    requires next { TakesTurn shard.old.writes (tree.get nat_cmp tasks.old number) }
    ensures turned { (e : Entry) → tree.get nat_cmp tasks.old number ≡ Some e → (w : Work)
        × ChangesOne tasks.old tasks.new number (with_work e w)
        × OnOk result (TurnedOn e.running.work w shard.old.writes shard.new.writes)
        × OnErr result (BrokeOff e.running.work w shard.old.writes shard.new.writes) }
    ensures notes { (e : Entry) → tree.get nat_cmp tasks.old number ≡ Some e → IfOk result (λ notes. notes.items ≡ work_notes e.running.work shard.old.writes) }
    ensures oldest { shard.new.oldest ≡ shard.old.oldest }
{
    let Some(entry) = tasks.get_mut(&number) else {
        unreachable!()
    };
    entry.get_mut().running.work.turn(shard)
}
