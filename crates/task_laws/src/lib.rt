//! The laws of cancellation, over every lawful history.
#![tactic(auto)]

ghost use Rattle.std.specs.Prelude.{◌≡◌, ◌∷◌, ◌++◌, List, [], Some, None, true, false, ℕ};
ghost use Rattle.task_events.specs.declared.event.Event.{Event};
ghost use Rattle.task_laws.specs.DeepExample.{deep_example, until_deep_listed};
ghost use Rattle.task_laws.specs.Example.{IsId, example};
ghost use Rattle.task_events.specs.Lawful.{Lawful};
ghost use Rattle.task_events.specs.Laws.{AnswersCancelsOnce, CancelsEarlyChildren, CancelsWithCause, CommandsActInOrder, DeliversAnyMessage, DrainsAll, EventsHaveCauses, LeavesNoBan, LetsNoChildEscape, ListsLiveTasks, MarksNamedTasks, MessagesTellThePast, OnceInFlight, OnePlace, OneStage, PlacesBans, ReachesEveryChild, RefusesLateChildren, RestsOnLeaves, StandsInCluster, StartsNothingLater, StepsFirst, StopsPlacedTrees, WaitsForDescendants, WritesInTurns, awaits_children};
ghost use Rattle.task_events.specs.Messages.{in_flight};
ghost use Rattle.task_events.specs.Messages.Message.{Ack};
ghost use Rattle.task_events.specs.Tasks.{parent_of, descends};
ghost use Rattle.task_events.specs.Cancels.{is_answered_done, is_named};
ghost use Rattle.task_events.specs.Bans.{ban_put, late_ban};

use task_ids::{Cluster, TaskId};

/// What a lawful history was at each earlier moment is lawful; so each law below holds at every moment.
pub fn earlier_is_lawful()
    ensures { (cluster : Cluster) (later h : List Event) → Lawful cluster (later ++ h) → Lawful cluster h }
{}

/// At each moment of a lawful history each unanswered ask has a live asker and is in exactly one of three
/// places: its request is in flight, its child is live, or its answer is in flight. An ended task has no
/// unanswered ask.
pub fn one_place()
    ensures { (cluster : Cluster) (h : List Event) → Lawful cluster h → OnePlace h }
{}

/// At each moment of a lawful history the ban of each marked task on each of its banned nodes is in exactly
/// one of seven stages, and no other ban stands. Its acknowledgement is sent exactly where the listing has ended and
/// each child that was listed has ended or has its own bans placed.
pub fn one_stage()
    ensures { (cluster : Cluster) (h : List Event) → Lawful cluster h → OneStage h }
{}

/// A child that is put where a ban of its parent has been put before never passes, and ends refused with that
/// ban's number. So no pass of a child comes after the ban of its parent on its node.
pub fn late_children()
    ensures refused { (cluster : Cluster) (h : List Event) → Lawful cluster h → RefusesLateChildren h }
    ensures no_pass { (cluster : Cluster) (h : List Event) (t p : TaskId) → Lawful cluster (Event.Pass t ∷ h)
        → parent_of t h ≡ Some p → ban_put t.node p h ≡ None }
{}

/// Once its messages are handled, an ended task has no ban. Where nothing is in flight and no listing is open, the bans
/// of each marked task are placed, so that no listing awaits a child for ever. And where besides nothing is live, no ban
/// stands.
pub fn drained_bans()
    ensures ended { (cluster : Cluster) (h : List Event) → Lawful cluster h → LeavesNoBan h }
    ensures placed { (cluster : Cluster) (h : List Event) → Lawful cluster h → PlacesBans h }
    ensures all { (cluster : Cluster) (h : List Event) → Lawful cluster h → DrainsAll h }
{}

/// A running earlier child is cancelled: a listing ends only when every child of the banned task on the node is ended
/// or marked, the ban is acknowledged only when each of them has ended or has its own bans placed, and a cancellation
/// is answered only when the whole trees of its tasks have stopped. From the end of a listing on each live child of
/// that task there is marked, or was put late and is to be refused; and a tree whose root's bans are placed stays
/// stopped.
pub fn early_children()
    ensures listed { (cluster : Cluster) → CancelsEarlyChildren cluster }
    ensures trees { (cluster : Cluster) (h : List Event) → Lawful cluster h → StopsPlacedTrees h }
    ensures later { (cluster : Cluster) (h : List Event) → Lawful cluster h → LetsNoChildEscape h }
{}

/// After the answer of a cancellation, whether it waits or not, nothing of its tasks' trees passes, asks or works.
pub fn stopped_trees()
    ensures { (cluster : Cluster) → StartsNothingLater cluster }
{}

/// A cancellation that waits is answered only when none of its tasks and none of their descendants is live, and
/// no descendant is put later.
pub fn waiting()
    ensures ended { (cluster : Cluster) (h : List Event) → Lawful cluster h → WaitsForDescendants h }
    ensures no_put { (cluster : Cluster) (h : List Event) (c k : ℕ) (a t p : TaskId) → Lawful cluster (Event.Put t p k ∷ h)
        → is_answered_done c h ≡ true → is_named c a h ≡ true → descends a t (Event.Put t p k ∷ h) ≡ false }
{}

/// A task is cancelled, and a reply says so, only where the task or an ancestor was named, and each task that was
/// named is marked; and a task is rejected exactly where its node is full.
pub fn causes()
    ensures named { (cluster : Cluster) (h : List Event) → Lawful cluster h → CancelsWithCause h }
    ensures events { (cluster : Cluster) → EventsHaveCauses cluster }
    ensures marked { (cluster : Cluster) (h : List Event) → Lawful cluster h → MarksNamedTasks h }
{}

/// Each message is in flight at most once. So whichever is delivered next, it is taken from its own place, and the
/// order of the others stays.
pub fn once_in_flight()
    ensures once { (cluster : Cluster) (h : List Event) → Lawful cluster h → OnceInFlight h }
    ensures delivered { (cluster : Cluster) (h : List Event) → Lawful cluster h → DeliversAnyMessage h }
{}

/// What a message in flight says is determined by what has happened: a request's node by its ask, an answer's
/// reply by the ask's child or its rejection, a ban's number by its task's mark. An acknowledgement in flight says that
/// its listing has ended and each child that was listed has ended or has its own bans placed.
pub fn message_contents()
    ensures { (cluster : Cluster) (h : List Event) → Lawful cluster h → MessagesTellThePast h }
{}

/// Where nothing is in flight, no listing is open, and no live task has to pass, to be refused or to end as
/// cancelled, nothing is live but tasks that wait for a due moment and their ancestors.
pub fn at_rest()
    ensures { (cluster : Cluster) (h : List Event) → Lawful cluster h → RestsOnLeaves h }
{}

/// The bans of a marked task go to every node on which it has a live child, or may get one; and every task stands
/// on a node of the cluster.
pub fn reached_children()
    ensures reached { (cluster : Cluster) (h : List Event) → Lawful cluster h → ReachesEveryChild h }
    ensures nodes { (cluster : Cluster) (h : List Event) → Lawful cluster h → StandsInCluster cluster h }
{}

/// The list of live tasks has each live task once and no other, and as many of a node as are counted there.
pub fn live_tasks_listed()
    ensures { (cluster : Cluster) (h : List Event) → Lawful cluster h → ListsLiveTasks h }
{}

/// A child passes or is refused as its first step, and a root needs neither.
pub fn first_steps()
    ensures { (cluster : Cluster) (h : List Event) → Lawful cluster h → StepsFirst h }
{}

/// Commands are numbered in order, and what a command begins with is the first that it does; documents are
/// written only in a turn of work of a live task without a mark.
pub fn commands_in_order()
    ensures commands { (cluster : Cluster) → CommandsActInOrder cluster }
    ensures writes { (cluster : Cluster) → WritesInTurns cluster }
{}

/// A cancellation is answered once, in the way that its command asks for; before that it names live tasks, each
/// once.
pub fn cancels_answered()
    ensures { (cluster : Cluster) → AnswersCancelsOnce cluster }
{}

/// The laws are not empty: a history with a waiting cancellation, an early child, a late child and a rejected
/// request is lawful.
pub fn example_is_lawful(cluster: Cluster, root: TaskId, early: TaskId, late: TaskId)
    requires nodes { cluster.nodes ≡ 2 }
    requires slots { cluster.slots ≡ 2 }
    requires root { IsId root 1 1 }
    requires early { IsId early 2 1 }
    requires late { IsId late 2 2 }
    ensures lawful { Lawful cluster (example root early late) }
    ensures late { late_ban late (example root early late) ≡ Some 2 }
{}

/// Nor are they where a cancellation goes deep: the listing of the root's ban awaits the child, and only when the
/// child's own ban is acknowledged the acknowledgement of the root's is sent. The cancellation does not wait, and is
/// answered after that.
pub fn deep_example_is_lawful(cluster: Cluster, root: TaskId, child: TaskId, grandchild: TaskId)
    requires nodes { cluster.nodes ≡ 3 }
    requires slots { cluster.slots ≡ 2 }
    requires root { IsId root 1 1 }
    requires child { IsId child 2 1 }
    requires grandchild { IsId grandchild 3 1 }
    ensures lawful { Lawful cluster (deep_example root child grandchild) }
    ensures awaits { awaits_children 2 root (until_deep_listed root child grandchild) ≡ true }
    ensures before { in_flight (until_deep_listed root child grandchild) ≡ Ack child 3 ∷ [] }
    ensures after { in_flight (Event.Acked child 3 ∷ until_deep_listed root child grandchild) ≡ Ack root 2 ∷ [] }
{}
