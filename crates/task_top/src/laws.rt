ghost use Rattle.std.specs.Prelude.{◌≡◌, ◌<◌, ◌↔◌, ◌⊎◌, ◌++◌, ℕ, List, None, length};
ghost use Rattle.task_ids.specs.declared.cause.Cause.{Cause};
ghost use Rattle.task_ids.specs.declared.cause.Cause.TheVariants.{TooLong};
ghost use Rattle.task_ids.specs.declared.cluster.Cluster.{Cluster};
ghost use Rattle.task_ids.specs.declared.corpus.Corpus.{Corpus};
ghost use Rattle.task_ids.specs.declared.task_id.TaskId.{TaskId};
ghost use Rattle.task_events.specs.declared.event.Event.{Event};
ghost use Rattle.task_events.specs.Bans.{standing_ban};
ghost use Rattle.task_events.specs.Lawful.{Lawful};
ghost use Rattle.task_events.specs.declared.history.TheConstants.{MAX_EVENTS};
ghost use Rattle.task_events.specs.declared.stop.Stop.TheVariants.{HistoryFull, NumbersSpent};
ghost use Rattle.task_events.specs.Laws.{IsDrained};
ghost use Rattle.script_lang.specs.declared.command.Mode.{Mode};
ghost use Rattle.script_lang.specs.declared.command.Script.{Script};
ghost use Rattle.command_roots.specs.Roots.{scripted};
ghost use Rattle.world_moves.specs.Cancels.{AllAnswered};
ghost use Rattle.world_moves.specs.Moves.{greatest_number};
ghost use Rattle.world_moves.specs.Plain.{AnswersPlainly};
ghost use Rattle.world_steps.specs.Scripts.{CanRun, IsRun, IsRunSoFar, StopsRun};
ghost use Rattle.write_laws.specs.CopiedAll.{CopiesItsRows};
ghost use Rattle.write_laws.specs.Throttled.{KeepsToRates};
ghost use Rattle.write_laws.specs.TreeWrites.{CountsItsWrites};
ghost use Rattle.task_top.specs.EachLine.{HasLines};
ghost use Rattle.task_top.specs.Promises.{CancelsExactly, KeepsAllLaws, TellsResults};
ghost use Rattle.top_parts.specs.Reading.{max_input, Reads, Refuses, IsRead, IsRefused};
ghost use Rattle.task_top.specs.Unharmed.{AnswersWholly};

use task_laws::{
    causes, drained_bans, early_children, late_children, one_place, one_stage, stopped_trees,
    waiting,
};
use world_steps::{results_stand, whole_is_so_far};
use write_laws::{copies_all_rows, counts_its_writes, keeps_to_its_rate};

/// In a mode and for a cluster any bytes are read as one corpus and one script or refused at one line for one cause, and
/// never both.
///
/// It computes nothing: its contract is the law.
pub fn one_reading()
    ensures either { (mode : Mode) (cluster : Cluster) (input : List ℕ) → IsRead mode cluster input ⊎ IsRefused mode cluster input }
    ensures never_both { (mode : Mode) (cluster : Cluster) (input : List ℕ) → IsRead mode cluster input → IsRefused mode cluster input → ⊥ }
    ensures one_corpus_and_script { (mode : Mode) (cluster : Cluster) (input : List ℕ) (c d : Corpus) (s t : Script)
        → Reads mode cluster input c s → Reads mode cluster input d t → (c ≡ d) × (s ≡ t) }
    ensures one_line_and_cause { (mode : Mode) (cluster : Cluster) (input : List ℕ) (l m : ℕ) (c d : Cause)
        → Refuses mode cluster input l c → Refuses mode cluster input m d → (l ≡ m) × (c ≡ d) }

    // No line is to blame exactly where the input is too long.
    ensures too_long { (mode : Mode) (cluster : Cluster) (input : List ℕ) → Refuses mode cluster input 0 TooLong ↔ (max_input < length input) }
{}

/// The limits that the other contracts name, as numbers: a history has at most 4,000,000 events, a node gives at most 1,048,575
/// numbers, and an input has at most 67,108,864 bytes.
///
/// It computes nothing: its contract is the law.
pub fn limits()
    ensures events { MAX_EVENTS ≡ 4000000 }
    ensures numbers { greatest_number ≡ 1048575 }
    ensures bytes { max_input ≡ 67108864 }
{}

/// What had happened at an earlier moment of a run was a run so far too, so what holds of these holds at each moment.
///
/// It computes nothing: its contract is the law.
pub fn earlier_is_so_far()
    ensures { (cluster : Cluster) (corpus : Corpus) (script : Script) (later h : List Event)
        → IsRunSoFar cluster corpus script (later ++ h) → IsRunSoFar cluster corpus script h }
{}

/// A run so far is a first part of the whole run, where there is one. So where a run comes to an early end for want of room, each whole
/// run has more events than a history holds; and where it does for want of a number, there is none.
///
/// It computes nothing: its contract is the law.
pub fn early_ends()
    ensures first_part { (cluster : Cluster) (corpus : Corpus) (script : Script) (past h : List Event)
        → IsRunSoFar cluster corpus script past → IsRun cluster corpus script h → (later : List Event) × (later ++ past ≡ h) }
    ensures full { (cluster : Cluster) (corpus : Corpus) (script : Script) (past h : List Event)
        → StopsRun cluster corpus script past HistoryFull → IsRun cluster corpus script h → MAX_EVENTS < length h }
    ensures spent { (cluster : Cluster) (corpus : Corpus) (script : Script) (past h : List Event)
        → StopsRun cluster corpus script past NumbersSpent → IsRun cluster corpus script h → ⊥ }
{}

/// The laws of cancellation hold at a moment of a lawful history; where it is drained no ban stands; a command's task is told as cancelled
/// exactly where it was marked; and a result is the reply of a task that has ended.
///
/// It computes nothing: its contract is the law.
pub(crate) fn all_laws()
    ensures laws { (cluster : Cluster) (h : List Event) → Lawful cluster h → KeepsAllLaws h }
    ensures over { (cluster : Cluster) (h : List Event) → Lawful cluster h → IsDrained h → (n : ℕ) (p : TaskId) → standing_ban n p h ≡ None }
    ensures cancelled { (cluster : Cluster) (h : List Event) → Lawful cluster h → CancelsExactly h }
    ensures results { (cluster : Cluster) (script : Script) (h : List Event) → Lawful cluster h → TellsResults script h }
{
    one_place();
    one_stage();
    late_children();
    early_children();
    stopped_trees();
    waiting();
    drained_bans();
    causes();
    results_stand();
}

/// In a whole run each command has its line. In any run a search to which nothing happened has no failed shard, a task that was to
/// write has replied with the numbers of the documents that it and its descendants have written, a reindex that tells of no failure has
/// copied the rows of all its slices, and a slice keeps to its rate.
///
/// It computes nothing: its contract is the law.
pub(crate) fn answer_laws()
    ensures lines { (cluster : Cluster) (corpus : Corpus) (script : Script) (h : List Event)
        → Lawful cluster h → AnswersPlainly cluster corpus script h → IsDrained h → AllAnswered h → IsRun cluster corpus script h → CanRun cluster.nodes script.commands → HasLines cluster corpus script h }
    ensures unharmed { (cluster : Cluster) (corpus : Corpus) (script : Script) (h : List Event)
        → Lawful cluster h → AnswersPlainly cluster corpus script h → AnswersWholly script h }
    ensures wrote { (cluster : Cluster) (corpus : Corpus) (script : Script) (h : List Event)
        → IsRunSoFar cluster corpus script h → Lawful cluster h → AnswersPlainly cluster corpus script h → CountsItsWrites script h }
    ensures copied { (cluster : Cluster) (corpus : Corpus) (script : Script) (h : List Event)
        → IsRunSoFar cluster corpus script h → Lawful cluster h → AnswersPlainly cluster corpus script h → CopiesItsRows cluster corpus script h }
    ensures throttled { (cluster : Cluster) (corpus : Corpus) (script : Script) (h : List Event)
        → IsRunSoFar cluster corpus script h → Lawful cluster h → KeepsToRates (scripted script) h }
{
    causes();
    counts_its_writes();
    copies_all_rows();
    keeps_to_its_rate();
    whole_is_so_far();
}
