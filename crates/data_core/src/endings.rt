//! The ends of a core's live tasks.
ghost use Rattle.std.specs.Prelude.{◌≡◌, IfOk, IfErr, IsSome, Some, option_map};
ghost use Rattle.task_ids.specs.Limits.{IsNode};
ghost use Rattle.live_tasks.specs.declared.entry.Entry.{Entry};
ghost use Rattle.live_tasks.specs.Live.{HasId, entry_at};
ghost use Rattle.reply_facts.specs.Letters.{IsAnswerAt};
ghost use Rattle.entry_facts.specs.Entries.{EndsByPlan, IsCoreOfRun};
ghost use Rattle.data_core.specs.Cores.{IsSound, SameSelf};
ghost use Rattle.data_core.specs.Letters.{IsLawfulEnding, IsLawfulEnd};
ghost use Rattle.data_core.specs.Plans.{plan_for};
ghost use Rattle.data_core.specs.Steps.{Finishes, answer_to, letters_of, shown_by};
ghost use Rattle.run_facts.specs.Cancels.{cancels_of};

use crate::state::DataCore;
use data_parts::{Ending, or_memory, reply_of, settle};
use live_tasks::{EndedTask, Entry};
use node_boards::DataBoard;
use node_link::{Answered, Body, Letter, RootAnswered};
use run_facts::{Of, Post, Run, To};
use std::alloc::Global;
use task_events::{Reply, Stop};
use task_ids::TaskId;
use task_table::Ended;

/// Ends a live task, unless an ask of it is unanswered: then it waits. Its reply goes to its parent, or a root's to the driver, and
/// where it was marked the control worker of its node is told that it has ended.
pub(crate) fn finish<W: Run, B: DataBoard<Of<W>>>(
    core: &mut DataCore,
    board: &mut B,
    task: TaskId,
    ending: Ending,
) -> Result<Option<Vec<Post<Letter<Of<W>>>>>, Stop>
    requires sound { IsSound (cancels_of W.cancels) (B.node board.old) (B.has board.old) (B.drawn board.old) (B.clear board.old) core.old }
    requires of_run { IsCoreOfRun W.setting core.old.cluster.shards core.old.shards core.old.live }
    requires live { HasId task (entry_at core.old.live task.number) }
    requires ending { IsLawfulEnding (cancels_of W.cancels) ending }
    requires planned { (e : Entry) → entry_at core.old.live task.number ≡ Some e → EndsByPlan (plan_for core.old.shards core.old.clock e) ending }
    ensures sound { IsSound (cancels_of W.cancels) (B.node board.new) (B.has board.new) (B.drawn board.new) (B.clear board.new) core.new }
    ensures of_run { IsCoreOfRun W.setting core.new.cluster.shards core.new.shards core.new.live }
    ensures own { SameSelf core.old core.new }
    ensures memory { IfErr result (λ stop. stop ≡ Stop.Memory) }
    ensures steps { (e : Entry) → entry_at core.old.live task.number ≡ Some e → IfOk result (λ given. Finishes B.rests ending e board.old core.old (option_map (λ posts. posts.items) given) core.new board.new) }
{
    let Some(entry) = core.live.get(task.number) else {
        unreachable!()
    };
    if entry.running.track.unanswered() > 0 {
        return Ok(None);
    }
    let page = shown_by(entry);
    let (ended, left) = core.live.end(board, task.number);
    let reply = reply_of(core.alloc, task, ending, ended.mark, &left.work)?;
    settle(
        core.alloc,
        &mut core.contexts,
        task,
        page,
        &left.work,
        &reply,
        core.clock.now(),
    )?;
    Ok(Some(letters_of(core.alloc, core.node, left, ended, reply)?))
}

/// The search that opened the context of the page that a task shows, where it shows one.
fn shown_by(entry: &Entry) -> Option<TaskId>
    ensures { result ≡ shown_by entry.now }
{
    match &entry.running.page {
        Some(page) => Some(page.id),
        None => None,
    }
}

/// The letters of a task that has ended.
fn letters_of<W: Run>(
    alloc: Global,
    node: u32,
    left: EndedTask,
    ended: Ended,
    reply: Reply,
) -> Result<Vec<Post<Letter<Of<W>>>>, Stop>
    requires node { IsNode node }
    requires lawful { IsLawfulEnd (cancels_of W.cancels) left reply }
    requires tells { IsAnswerAt W.setting left.place left.request left.page reply }
    requires task { IsSome ended.receipt.task }
    ensures posts { IfOk result (λ posts. posts.items ≡ letters_of node left ended.receipt reply ended.mark) }
    ensures memory { IfErr result (λ stop. stop ≡ Stop.Memory) }
{
    let mut posts = or_memory(Vec::with_capacity(alloc, 2))?;
    posts.push_reserved(answer(left, ended, reply));
    if ended.mark.is_some() {
        posts.push_reserved(Post {
            to: To::Control(node),
            letter: Letter::new(Body::Ended {
                receipt: ended.receipt,
            }),
        });
    }
    Ok(posts)
}

/// The worker of a node at which the tasks live that ask: such a task works on no shard, so it is one of worker 0.
pub(crate) fn asker_at(node: u32) -> To
    ensures { result ≡ To.Data node 0 }
{
    To::Data { node, worker: 0 }
}

/// The answer of a task that has ended, to its parent, or a root's to the driver.
fn answer<W: Run>(left: EndedTask, ended: Ended, reply: Reply) -> Post<Letter<Of<W>>>
    requires lawful { IsLawfulEnd (cancels_of W.cancels) left reply }
    requires tells { IsAnswerAt W.setting left.place left.request left.page reply }
    ensures { result ≡ answer_to ended.receipt.parent left ended.receipt reply }
{
    let EndedTask {
        place,
        info,
        request,
        page,
        work,
    } = left;
    drop(info);
    drop(work);
    let receipt = ended.receipt;
    match receipt.parent() {
        Some(parent) => Post {
            to: asker_at(parent.node),
            letter: Letter::new(Body::Answer(Answered {
                place,
                receipt,
                request,
                reply,
                page,
            })),
        },
        None => Post {
            to: To::Driver,
            letter: Letter::new(Body::RootAnswer(RootAnswered {
                place,
                request,
                reply,
                page,
            })),
        },
    }
}
