//! What the tasks that write tell of their writes, over the histories of runs.
#![tactic(auto)]

ghost use Rattle.std.specs.Prelude.{ℕ, ◌≡◌, List, Some, true};
ghost use Rattle.task_ids.specs.declared.task_id.TaskId.{TaskId};
ghost use Rattle.task_events.specs.declared.event.Event.{Event};
ghost use Rattle.task_events.specs.declared.reply.Counts.{Counts};
ghost use Rattle.task_events.specs.declared.reply.Reply.TheVariants.{Wrote};
ghost use Rattle.task_events.specs.declared.request.BulkAsk.{BulkAsk};
ghost use Rattle.task_events.specs.declared.request.BulkShardAsk.{BulkShardAsk};
ghost use Rattle.task_events.specs.declared.request.ReindexAsk.{ReindexAsk};
ghost use Rattle.task_events.specs.declared.request.Request.{Request};
ghost use Rattle.task_events.specs.declared.request.Request.TheVariants.{Bulk, BulkShard, Reindex, Slice};
ghost use Rattle.task_events.specs.declared.request.SliceAsk.{SliceAsk};
ghost use Rattle.task_events.specs.Lawful.{Lawful};
ghost use Rattle.task_events.specs.Requests.{request_of};
ghost use Rattle.task_events.specs.Steps.{asked_by};
ghost use Rattle.task_events.specs.Tasks.{reply_of};
ghost use Rattle.command_roots.specs.Roots.{scripted};
ghost use Rattle.world_moves.specs.Plain.{AnswersPlainly};
ghost use Rattle.world_steps.specs.Scripts.{IsRunSoFar};
ghost use Rattle.write_laws.specs.Copied.{HasWritten, docs_shown, has_read_all};
ghost use Rattle.write_laws.specs.CopiedAll.{CopiesItsRows};
ghost use Rattle.write_laws.specs.CopiedRows.{CopiesRows};
ghost use Rattle.write_laws.specs.CopiedSlices.{CopiesSlices};
ghost use Rattle.write_laws.specs.Destinations.{WritesInto, dest_in};
ghost use Rattle.write_laws.specs.KindsAsked.{KeepsToKinds};
ghost use Rattle.write_laws.specs.Throttled.{KeepsToRates};
ghost use Rattle.write_laws.specs.TreeWrites.{CountsItsWrites};

use script_lang::Script;
use task_ids::{Cluster, Corpus};

/// In a run each task asks only for what tasks of its kind ask for, and documents are written in the turns of parts
/// of bulks alone.
///
/// It computes nothing: its contract is the law.
pub fn keeps_to_kinds()
    ensures { (cluster : Cluster) (corpus : Corpus) (script : Script) (h : List Event)
        → IsRunSoFar cluster corpus script h → KeepsToKinds (scripted script) h }
{}

/// Each reindex, slice, bulk and part of a bulk that has ended, cancelled or not, has replied with the numbers of the
/// documents that it and its descendants have created and replaced: no more and no fewer than were written.
///
/// It computes nothing: its contract is the law.
pub fn counts_its_writes()
    // in each lawful history whose tasks reply with what they have counted, and keep to their kinds
    ensures histories { (cluster : Cluster) (corpus : Corpus) (script : Script) (h : List Event)
        → Lawful cluster h → AnswersPlainly cluster corpus script h → KeepsToKinds (scripted script) h → CountsItsWrites script h }
    // so in each run
    ensures runs { (cluster : Cluster) (corpus : Corpus) (script : Script) (h : List Event)
        → IsRunSoFar cluster corpus script h → Lawful cluster h → AnswersPlainly cluster corpus script h → CountsItsWrites script h }
{}

/// What was to be written was written, and each document once: by a part of a bulk that has replied with counts, so was
/// not cancelled, and by a bulk that tells of no failure.
///
/// It computes nothing: its contract is the law.
pub fn writes_its_documents()
    ensures parts { (cluster : Cluster) (corpus : Corpus) (script : Script) (h : List Event) (t : TaskId) (ask : BulkShardAsk) (counts : Counts)
        → IsRunSoFar cluster corpus script h → Lawful cluster h
        → request_of (scripted script) t h ≡ Some (BulkShard ask) → reply_of t h ≡ Some (Wrote counts) → HasWritten (scripted script) t h ask.docs }
    ensures bulks { (cluster : Cluster) (corpus : Corpus) (script : Script) (h : List Event) (t : TaskId) (ask : BulkAsk) (counts : Counts)
        → IsRunSoFar cluster corpus script h → Lawful cluster h
        → request_of (scripted script) t h ≡ Some (Bulk ask) → reply_of t h ≡ Some (Wrote counts) → counts.failures ≡ 0 → HasWritten (scripted script) t h ask.docs }
{}

/// A slice that tells of no failure has written each document of the pages that it was shown, once; so has a reindex that
/// does the work of its one slice itself.
///
/// It computes nothing: its contract is the law.
pub fn writes_its_pages()
    ensures slices { (cluster : Cluster) (corpus : Corpus) (script : Script) (h : List Event) (t : TaskId) (ask : SliceAsk) (counts : Counts)
        → IsRunSoFar cluster corpus script h → Lawful cluster h
        → request_of (scripted script) t h ≡ Some (Slice ask) → reply_of t h ≡ Some (Wrote counts) → counts.failures ≡ 0 → HasWritten (scripted script) t h (docs_shown (asked_by t h)) }
    ensures reindexes { (cluster : Cluster) (corpus : Corpus) (script : Script) (h : List Event) (t : TaskId) (ask : ReindexAsk) (counts : Counts)
        → IsRunSoFar cluster corpus script h → Lawful cluster h → ask.slices ≡ 1
        → request_of (scripted script) t h ≡ Some (Reindex ask) → reply_of t h ≡ Some (Wrote counts) → counts.failures ≡ 0 → HasWritten (scripted script) t h (docs_shown (asked_by t h)) }
{}

/// A slice that tells of no failure has read on up to a page that shows nothing, and of which no shard failed; so has a
/// reindex that does the work of its one slice itself.
///
/// It computes nothing: its contract is the law.
pub fn reads_all_pages()
    ensures slices { (cluster : Cluster) (corpus : Corpus) (script : Script) (h : List Event) (t : TaskId) (ask : SliceAsk) (counts : Counts)
        → IsRunSoFar cluster corpus script h → Lawful cluster h
        → request_of (scripted script) t h ≡ Some (Slice ask) → reply_of t h ≡ Some (Wrote counts) → counts.failures ≡ 0 → has_read_all (asked_by t h) ≡ true }
    ensures reindexes { (cluster : Cluster) (corpus : Corpus) (script : Script) (h : List Event) (t : TaskId) (ask : ReindexAsk) (counts : Counts)
        → IsRunSoFar cluster corpus script h → Lawful cluster h → ask.slices ≡ 1
        → request_of (scripted script) t h ≡ Some (Reindex ask) → reply_of t h ≡ Some (Wrote counts) → counts.failures ≡ 0 → has_read_all (asked_by t h) ≡ true }
{}

/// A reindex of several slices that tells of no failure has asked for each of its slices, in order. Each of these has
/// ended and tells of no failure, and together they have written what the reindex has.
///
/// It computes nothing: its contract is the law.
pub fn writes_its_slices()
    ensures { (cluster : Cluster) (corpus : Corpus) (script : Script) (h : List Event) (t : TaskId) (ask : ReindexAsk) (counts : Counts)
        → IsRunSoFar cluster corpus script h → Lawful cluster h → (ask.slices ≡ 1 → ⊥)
        → request_of (scripted script) t h ≡ Some (Reindex ask) → reply_of t h ≡ Some (Wrote counts) → counts.failures ≡ 0 → CopiesSlices (scripted script) t ask h }
{}

/// In a run each slice asks for a page after its first one at the moment that its rate gives, or later.
///
/// It computes nothing: its contract is the law.
pub fn keeps_to_its_rate()
    ensures { (cluster : Cluster) (corpus : Corpus) (script : Script) (h : List Event)
        → IsRunSoFar cluster corpus script h → Lawful cluster h → KeepsToRates (scripted script) h }
{}

/// A slice that tells of no failure has written each row of its part of the source as its first search found it, once, and
/// nothing else; so has a reindex that does the work of its one slice itself.
///
/// It computes nothing: its contract is the law.
pub fn copies_its_rows()
    ensures slices { (cluster : Cluster) (corpus : Corpus) (script : Script) (h : List Event) (t : TaskId) (ask : SliceAsk) (counts : Counts)
        → IsRunSoFar cluster corpus script h → Lawful cluster h → AnswersPlainly cluster corpus script h
        → request_of (scripted script) t h ≡ Some (Slice ask) → reply_of t h ≡ Some (Wrote counts) → counts.failures ≡ 0 → CopiesRows cluster corpus script t ask.reindex ask.slice h }
    ensures reindexes { (cluster : Cluster) (corpus : Corpus) (script : Script) (h : List Event) (t : TaskId) (ask : ReindexAsk) (counts : Counts)
        → IsRunSoFar cluster corpus script h → Lawful cluster h → AnswersPlainly cluster corpus script h → ask.slices ≡ 1
        → request_of (scripted script) t h ≡ Some (Reindex ask) → reply_of t h ≡ Some (Wrote counts) → counts.failures ≡ 0 → CopiesRows cluster corpus script t ask 0 h }
{}

/// A reindex that tells of no failure has written, for each of its slices, each row of that slice as its first search found
/// it, once, and nothing else, and all of it into the index that it was asked to write to.
///
/// It computes nothing: its contract is the law.
pub fn copies_all_rows()
    ensures { (cluster : Cluster) (corpus : Corpus) (script : Script) (h : List Event)
        → IsRunSoFar cluster corpus script h → Lawful cluster h → AnswersPlainly cluster corpus script h → CopiesItsRows cluster corpus script h }
{
    copies_its_rows();
    writes_where_told();
}

/// All that a task and its descendants have written is in the index to which the task was asked to write.
///
/// It computes nothing: its contract is the law.
pub fn writes_where_told()
    ensures { (cluster : Cluster) (corpus : Corpus) (script : Script) (h : List Event) (t : TaskId) (request : Request) (dest : List ℕ)
        → IsRunSoFar cluster corpus script h → Lawful cluster h → request_of (scripted script) t h ≡ Some request → dest_in request ≡ Some dest → WritesInto dest t h }
{}
