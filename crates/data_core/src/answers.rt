//! The answers to what tasks have asked.
ghost use Rattle.std.specs.Prelude.{◌≡◌, [], Some, IfOk, IfErr, OnOk};
ghost use Rattle.node_link.specs.Lawful.{IsLawfulReply};
ghost use Rattle.run_facts.specs.Cancels.{cancels_of};
ghost use Rattle.live_tasks.specs.declared.entry.Entry.{Entry};
ghost use Rattle.live_tasks.specs.Answering.{Fits, asker, left_by, untracking};
ghost use Rattle.live_tasks.specs.Chains.{Chain};
ghost use Rattle.live_tasks.specs.Entries.{after_answer};
ghost use Rattle.live_tasks.specs.Live.{ChangesTask};
ghost use Rattle.data_core.specs.Cores.{IsSound, SameSelf};
ghost use Rattle.entry_facts.specs.Entries.{IsCoreOfRun};
ghost use Rattle.data_core.specs.Turns.{Answers, OnlyTasks};
ghost use Rattle.reply_facts.specs.Letters.{IsAnswerAt};

use crate::state::DataCore;
use node_boards::DataBoard;
use node_link::{Answered, Letter};
use run_facts::{Of, Post, Run};
use task_events::Stop;

/// The task that asked takes the answer. One that fits no unanswered ask of a live task here is passed over.
pub(crate) fn take_answer<W: Run, B: DataBoard<Of<W>>>(
    core: &mut DataCore,
    board: &mut B,
    answered: Answered,
) -> Result<Vec<Post<Letter<Of<W>>>>, Stop>
    requires sound { IsSound (cancels_of W.cancels) (B.node board.old) (B.has board.old) (B.drawn board.old) (B.clear board.old) core.old }
    requires of_run { IsCoreOfRun W.setting core.old.cluster.shards core.old.shards core.old.live }
    requires lawful { IsLawfulReply (cancels_of W.cancels) answered.reply }
    requires tells { IsAnswerAt W.setting answered.place answered.request answered.page answered.reply }
    ensures sound { IsSound (cancels_of W.cancels) (B.node board.new) (B.has board.new) (B.drawn board.new) (B.clear board.new) core.new }
    ensures of_run { IsCoreOfRun W.setting core.new.cluster.shards core.new.shards core.new.live }
    ensures own { SameSelf core.old core.new }
    ensures memory { IfErr result (λ stop. stop ≡ Stop.Memory) }
    ensures turned { IfOk result (λ posts. Answers B.rests answered board.old core.old posts.items core.new board.new) }
{
    if core.live.fits(
        &answered.receipt,
        &answered.place,
        &answered.request,
        &answered.reply,
    ) {
        return feed(core, board, answered);
    }
    Ok(Vec::new(core.alloc))
}

/// The task that asked takes the answer, which is to an unanswered ask of it.
fn feed<W: Run, B: DataBoard<Of<W>>>(
    core: &mut DataCore,
    board: &mut B,
    answered: Answered,
) -> Result<Vec<Post<Letter<Of<W>>>>, Stop>
    requires sound { IsSound (cancels_of W.cancels) (B.node board.old) (B.has board.old) (B.drawn board.old) (B.clear board.old) core.old }
    requires of_run { IsCoreOfRun W.setting core.old.cluster.shards core.old.shards core.old.live }
    requires lawful { IsLawfulReply (cancels_of W.cancels) answered.reply }
    requires tells { IsAnswerAt W.setting answered.place answered.request answered.page answered.reply }
    requires fits { Fits core.old.live answered.receipt answered.place answered.request answered.reply }
    ensures sound { IsSound (cancels_of W.cancels) (B.node board.new) (B.has board.new) (B.drawn board.new) (B.clear board.new) core.new }
    ensures of_run { IsCoreOfRun W.setting core.new.cluster.shards core.new.shards core.new.live }
    ensures own { SameSelf core.old core.new }
    ensures memory { IfErr result (λ stop. stop ≡ Stop.Memory) }
    ensures none { IfOk result (λ posts. posts.items ≡ []) }
    ensures taken { (e : Entry) → asker core.old.live answered.receipt.parent ≡ Some e
        → OnOk result (ChangesTask core.old.live core.new.live e.running.ticket.id.number (after_answer e answered.receipt.ask answered.reply core.old.clock.ms)) }
    ensures calls { (e : Entry) → asker core.old.live answered.receipt.parent ≡ Some e
        → OnOk result (Chain B.rests board.old (untracking e.running.ticket (left_by e.running.track answered.receipt.ask)) board.new) }
    ensures rest { OnlyTasks core.old core.new }
{
    let Answered {
        place: _,
        receipt,
        request,
        reply,
        page,
    } = answered;
    drop(request);
    drop(page);
    let now = core.clock.now();
    match core.live.answer(board, receipt, reply, now) {
        Ok(()) => Ok(Vec::new(core.alloc)),
        Err(stop) => Err(stop),
    }
}
