ghost use Rattle.command_roots.specs.Results.{keeping};
ghost use Rattle.command_roots.specs.Roots.{scripted};
ghost use Rattle.script_lang.specs.declared.command.Script.{Script};
ghost use Rattle.std.specs.FinMap.{get};
ghost use Rattle.std.specs.List.{list_any};
ghost use Rattle.std.specs.Prelude.{◌≡◌, List, true, false, Some, length};
ghost use Rattle.task_events.specs.Documents.{writes_of};
ghost use Rattle.task_events.specs.Lawful.{Lawful};
ghost use Rattle.task_events.specs.Tasks.{is_live, reply_of};
ghost use Rattle.task_events.specs.declared.context.Context.{Context};
ghost use Rattle.task_events.specs.declared.event.Event.{Event};
ghost use Rattle.task_events.specs.declared.reply.Reply.{Reply};
ghost use Rattle.task_ids.specs.declared.cluster.Cluster.{Cluster};
ghost use Rattle.task_ids.specs.declared.corpus.Corpus.{Corpus};
ghost use Rattle.task_ids.specs.declared.task_id.TaskId.{TaskId};
ghost use Rattle.task_results.specs.Stands.{ResultStands, result_at, results_at};
ghost use Rattle.world_moves.specs.Good.{so_far};
ghost use Rattle.world_moves.specs.Owning.{OneAtATime};
ghost use Rattle.world_moves.specs.Plain.{AnswersPlainly};
ghost use Rattle.world_steps.specs.PagesFollow.{all_given, cuts, first_context, joined, listed, pages, shows_none};
ghost use Rattle.world_steps.specs.Scripts.{IsRun, IsRunSoFar};

/// A script has one run over a corpus on a cluster: its schedule, which it writes itself, leaves nothing open.
///
/// It computes nothing: its contract is the law.
pub fn one_run()
    ensures { (cluster : Cluster) (corpus : Corpus) (script : Script) (h g : List Event)
        → IsRun cluster corpus script h → IsRun cluster corpus script g → h ≡ g }
{}

/// A whole run is one of the runs so far, so what holds of these holds of it.
///
/// It computes nothing: its contract is the law.
pub fn whole_is_so_far()
    ensures { (cluster : Cluster) (corpus : Corpus) (script : Script) (h : List Event) → IsRun cluster corpus script h → IsRunSoFar cluster corpus script h }
{}

/// The pages of one context are the first cuts of one list, one after the other: of all rows that match in the shards that it keeps, in hit order,
/// at the versions that it keeps, whatever is written later.
/// Each page shows as many as the search's size, up to the end of the list. None of these shards may have failed in a page, and each page
/// has found its context free, as the world promises of every history (`alone`).
///
/// It computes nothing: its contract is the law.
pub fn pages_follow()
    ensures { (cluster : Cluster) (corpus : Corpus) (script : Script) (h : List Event) (id : TaskId) (c : Context)
        → OneAtATime (scripted script) h → Lawful cluster h → AnswersPlainly cluster corpus script h
        → first_context (scripted script) id h ≡ Some c → all_given c.shards (scripted script) id h ≡ true
        → let shown = pages (scripted script) id h in
        shown ≡ cuts c.ask.body.size (length shown) (listed (writes_of (so_far corpus script h) cluster.shards c.ask.index) c) }
{}

/// A page that shows no hit says that all has been shown: the pages together are the whole list.
///
/// It computes nothing: its contract is the law.
pub fn empty_page_ends()
    ensures { (cluster : Cluster) (corpus : Corpus) (script : Script) (h : List Event) (id : TaskId) (c : Context)
        → OneAtATime (scripted script) h → Lawful cluster h → AnswersPlainly cluster corpus script h
        → first_context (scripted script) id h ≡ Some c → all_given c.shards (scripted script) id h ≡ true
        → let shown = pages (scripted script) id h in
        list_any shows_none shown ≡ true → joined shown ≡ listed (writes_of (so_far corpus script h) cluster.shards c.ask.index) c }
{}

/// In a lawful history a result stands only of a task that has ended, and it is the reply with which that ended, whatever came since. The
/// results of all tasks are those of each.
///
/// It computes nothing: its contract is the law.
pub fn results_stand()
    ensures ended { (cluster : Cluster) (script : Script) (h : List Event) (t : TaskId) (reply : Reply)
        → Lawful cluster h → ResultStands (keeping script) t reply h → is_live t h ≡ false }
    ensures same { (cluster : Cluster) (script : Script) (h : List Event) (t : TaskId) (reply : Reply)
        → Lawful cluster h → ResultStands (keeping script) t reply h → reply_of t h ≡ Some reply }
    ensures all { (script : Script) (h : List Event) (t : TaskId) → get (results_at (keeping script) h) t ≡ result_at (keeping script) t h }
{}
