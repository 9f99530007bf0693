ghost use Rattle.std.specs.Prelude.{◌<◌, ◌≡◌, ◌≤◌, ◌↔◌, [], length, IfSome, Some};
ghost use Rattle.es_io.specs.Bytes.{IfGave};
ghost use Rattle.es_io.specs.Count.{Rose};
ghost use Rattle.task_events.specs.declared.history.TheConstants.{MAX_EVENTS};
ghost use Rattle.task_events.specs.Lawful.{Lawful};
ghost use Rattle.command_roots.specs.Roots.{scripted};
ghost use Rattle.world_moves.specs.Owning.{OneAtATime};
ghost use Rattle.world_moves.specs.Plain.{AnswersPlainly};
ghost use Rattle.world_steps.specs.Scripts.{CanRun};
ghost use Rattle.task_top.specs.Kept.{AnswersInput, IsWholeOrNone, RanAsRead, Rests, TellsEach, WritesLines, HasCause, IsAfterReading, early_status};
ghost use Rattle.task_top.specs.Progress.{EndsWhole};
ghost use Rattle.task_top.specs.Promises.{AtEachMoment, KeepsAllLaws, CancelsExactly, TellsResults};
ghost use Rattle.top_parts.specs.Reading.{max_input};
ghost use Rattle.top_parts.specs.Status.{IsReadWhole, TellsFault};
ghost use Rattle.task_top.specs.Unharmed.{AnswersWholly};
ghost use Rattle.write_laws.specs.CopiedAll.{CopiesItsRows};
ghost use Rattle.write_laws.specs.Throttled.{KeepsToRates};
ghost use Rattle.write_laws.specs.TreeWrites.{CountsItsWrites};

use crate::kept::Kept;
use crate::laws::{all_laws, answer_laws, earlier_is_so_far, early_ends};
use crate::run::run_script;
use es_io::{Sink, Source, write_all_of};
use line_print::{Note, print_lines};
use script_lang::{Mode, Script};
use std::alloc::Global;
use task_events::Stop;
use task_ids::{Cause, Cluster, Corpus};
use task_laws::earlier_is_lawful;
use top_parts::{Status, Unread, read_whole};
use world_steps::whole_is_so_far;

/// Reads an input to its end, runs its script step by step on a cluster, and writes the line of each command.
///
/// The input is documents as Elasticsearch's bulk API takes them, a line `--`, and the lines of a script. The script runs in
/// a serial world: its nodes are simulated, and one thing happens after another. It starts searches, pages through them, lists
/// and cancels them, moves the clock, and may say itself which message comes next, and which task or listing makes a step. After
/// the last command the world is drained, so that nothing goes on when the call ends, and every cancel has its answer.
///
/// The lines are written once all has run. Where the run comes to an early end nothing is written.
pub fn sim_top<S: Source, K: Sink>(
    alloc: Global,
    cluster: &Cluster,
    input: &mut S,
    out: &mut K,
) -> (Status, Kept)
    // Where the source tells its bytes: they were read as what is kept, or they are refused so.
    ensures input { IfSome (S.left input.old) (λ bytes. AnswersInput cluster.now bytes result.0 result.1) }
    // Where it was read and memory did not run out, nothing of it is left.
    ensures ended { IsReadWhole result.0 → IfSome (S.left input.old) (λ _. S.left input.new ≡ Some []) }
    // It is refused as too long exactly where the source gave more bytes than an input may have, whatever memory there was.
    ensures too_long { IfGave (S.left input.old) (S.left input.new) (λ n. (max_input < n) ↔ (result.0 ≡ Status.Refused 0 Cause.TooLong)) }
    // That the source failed is told exactly where it has failed in this call, whatever memory there was.
    ensures source_told { TellsFault (S.faults input.old) (S.faults input.new) (result.0 ≡ Status.ReadFault) }
    // What happened is the run of what was read.
    ensures run { RanAsRead cluster.now result.0 result.1 }
    // Where all is told that is the whole run. A full history, or spent numbers, are told only where no whole run can come: none that a history
    // holds, or none at all.
    ensures whole { IsWholeOrNone cluster.now result.0 result.1 }
    // Each event of it was allowed when it came.
    ensures lawful { Lawful cluster.now result.1.history }
    // So at every moment, as all up to `throttled`: each unanswered ask is in one place, and each ban in one stage. A child that registers after its
    // parent's ban on that node is refused with the ban's number, and a running earlier one is marked before the listing
    // there ends. A waiting cancel is answered only when no task that it named and no descendant is live. Once its messages
    // are handled, an ended task has no ban. A task is cancelled only by a cancel that named it or an ancestor.
    ensures laws { AtEachMoment KeepsAllLaws result.1.history }
    // The reply of a search or of a page is cancelled exactly where its task was marked, with the number of the mark.
    ensures cancelled { AtEachMoment CancelsExactly result.1.history }
    // A result stands only of a task that has ended, and it is the reply with which that ended.
    ensures results { AtEachMoment (λ h. TellsResults result.1.script h) result.1.history }
    // Each search that has ended by then without being cancelled replied with the plain answer, and each page of one with that over its context:
    // of the shards that this keeps, each as it was read, the rows after its cursor.
    ensures plain { AtEachMoment (λ h. AnswersPlainly cluster.now result.1.corpus result.1.script h) result.1.history }
    // A page starts only where its context is free, and a task asks only for contexts of its own and for their pages.
    ensures alone { AtEachMoment (λ h. OneAtATime (scripted result.1.script) h) result.1.history }
    // No shard of it failed where nothing happened to it: neither it nor a child of it was marked or refused, and none of its requests was rejected.
    ensures unharmed { AtEachMoment (λ h. AnswersWholly result.1.script h) result.1.history }
    // Each reindex that has ended by then, cancelled or not, replied with the numbers of the documents that it and its tasks have created and
    // replaced.
    ensures wrote { AtEachMoment (λ h. CountsItsWrites result.1.script h) result.1.history }
    // Each reindex that tells of no failure has written, for each of its slices, each matching row of that slice at the versions that the
    // slice's first search read, once, with its id and source, and nothing else, and all of it into the index that it was asked to write to.
    ensures copied { AtEachMoment (λ h. CopiesItsRows cluster.now result.1.corpus result.1.script h) result.1.history }
    // Each slice asks for a page after its first one once so long has gone by since the page before came as the documents of that take at
    // the rate.
    ensures throttled { AtEachMoment (λ h. KeepsToRates (scripted result.1.script) h) result.1.history }
    // After a whole run nothing is live, in flight or listed, no ban stands, and every cancel that named a task is answered.
    ensures rests { Rests result.0 result.1 }
    // So each command has its line: a search, a scroll or a reindex the end of its task or what refused it, a tick its event, a cancel its answer or that it
    // found no task, a list what it lists, a line of a schedule its events or why nothing happened; and what is printed for it is one line.
    ensures each_has_its_line { TellsEach cluster.now result.0 result.1 }
    // Where the sink tells its bytes: they grew by the printed lines of the run.
    ensures output { WritesLines cluster.now (K.written out.old) (K.written out.new) result.0 result.1 }
    // Where the sink has failed, that is told.
    ensures told { K.faults out.old < K.faults out.new → result.0 ≡ Status.WriteFault }
    // A fault and an early end have their cause.
    ensures cause { HasCause cluster.now result.0 result.1 (Rose (S.faults input.old) (S.faults input.new)) (Rose (K.faults out.old) (K.faults out.new)) }
{
    // The laws of each moment of a run. They compute nothing.
    earlier_is_lawful();
    earlier_is_so_far();
    early_ends();
    all_laws();
    answer_laws();
    whole_is_so_far();
    match read_whole(alloc, Mode::Sim, cluster, input) {
        Ok((corpus, script)) => run_and_print(alloc, cluster, corpus, script, out),
        Err(Unread::Refused { line, cause }) => {
            (Status::Refused(line, cause), Kept::nothing(alloc))
        }
        Err(Unread::ReadFault) => (Status::ReadFault, Kept::nothing(alloc)),
        Err(Unread::Memory) => (Status::Memory, Kept::nothing(alloc)),
    }
}

/// Runs what was read, and writes the line of each command.
fn run_and_print<K: Sink>(
    alloc: Global,
    cluster: &Cluster,
    corpus: Corpus,
    script: Script,
    out: &mut K,
) -> (Status, Kept)
    requires can_run { CanRun cluster.now.nodes script.commands }
    requires few { length script.commands ≤ 65535 }
    ensures corpus { result.1.corpus ≡ corpus }
    ensures script { result.1.script ≡ script }
    ensures status { IsAfterReading result.0 }
    ensures run { RanAsRead cluster.now result.0 result.1 }
    ensures fits { length result.1.history ≤ MAX_EVENTS }
    ensures lawful { Lawful cluster.now result.1.history }
    ensures plain { AnswersPlainly cluster.now result.1.corpus result.1.script result.1.history }
    ensures alone { OneAtATime (scripted result.1.script) result.1.history }
    ensures rests { Rests result.0 result.1 }
    ensures each_has_its_line { TellsEach cluster.now result.0 result.1 }
    ensures output { WritesLines cluster.now (K.written out.old) (K.written out.new) result.0 result.1 }
    ensures told { K.faults out.old < K.faults out.new → result.0 ≡ Status.WriteFault }
    ensures cause { HasCause cluster.now result.0 result.1 ⊥ (Rose (K.faults out.old) (K.faults out.new)) }
{
    let (history, ran) = run_script(alloc, *cluster, &corpus, &script);
    let kept = Kept {
        corpus,
        script,
        history,
    };
    // What a history can take besides says how many events it has at most.
    let _left = kept.history.left();
    match ran {
        Ok(found) => {
            let status = write_lines(alloc, cluster, &kept, found.as_slice(), out);
            (status, kept)
        }
        Err(stop) => (early_status(stop), kept),
    }
}

/// What is told of a run that came to an early end.
fn early_status(stop: Stop) -> Status
    ensures { result ≡ early_status stop }
{
    match stop {
        Stop::HistoryFull => Status::HistoryFull,
        Stop::NumbersSpent => Status::NumbersSpent,
        Stop::Memory => Status::Memory,
    }
}

/// Writes the line of each command after a whole run.
fn write_lines<K: Sink>(
    alloc: Global,
    cluster: &Cluster,
    kept: &Kept,
    found: &[Option<Note>],
    out: &mut K,
) -> Status
    requires can_run { CanRun cluster.now.nodes kept.now.script.commands }
    requires few { length kept.now.script.commands ≤ 65535 }
    requires lawful { Lawful cluster.now kept.now.history }
    requires plain { AnswersPlainly cluster.now kept.now.corpus kept.now.script kept.now.history }
    requires ran { EndsWhole cluster.now kept.now.corpus kept.now.script kept.now.history found.now }
    ensures status { IsAfterReading result }
    ensures run { RanAsRead cluster.now result kept.now }
    ensures rests { Rests result kept.now }
    ensures each_has_its_line { TellsEach cluster.now result kept.now }
    ensures output { WritesLines cluster.now (K.written out.old) (K.written out.new) result kept.now }
    ensures told { K.faults out.old < K.faults out.new → result ≡ Status.WriteFault }
    ensures cause { HasCause cluster.now result kept.now ⊥ (Rose (K.faults out.old) (K.faults out.new)) }
{
    let Kept {
        corpus,
        script,
        history,
    } = kept;
    // Where nothing is live, in flight or listed no ban stands, and each command has its line. They compute nothing.
    all_laws();
    answer_laws();
    let mut text = Vec::new(alloc);
    match print_lines(alloc, cluster, corpus, script, history, found, &mut text) {
        Ok(()) => {}
        Err(_) => return Status::Memory,
    }
    match write_all_of(out, text.as_slice()) {
        Ok(()) => Status::Done,
        Err(_) => Status::WriteFault,
    }
}
